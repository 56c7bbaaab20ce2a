//! The decider: whether an output of two networks is equal at all times that meet premises, with a tree of cases that shows it, or times
//! at which the two differ.
//!
//! `NoMemory` is reported where memory ran out.
#![tactic(auto)]

mod advancing;
mod assuming;
mod compared;
mod comparing;
mod comparison;
mod deciding;
mod drawing;
mod ending;
mod gathering;
mod hints;
mod later;
mod laws;
mod leaf;
mod question;
mod sides;
mod stages;
mod steps;
mod tying;
mod verdict;
mod walk;
mod ways;

pub use compared::Compared;
pub use comparing::compare;
pub use deciding::decide;
pub use laws::{
    decided_forms_stay, live_trees_are_too_small, networks_have_term_forms,
    terms_have_the_times_of_their_forms, trees_of_due_splits_are_least,
};
pub use verdict::Verdict;
