//! The simplifier: terms of a store, by twenty laws of the algebra, operands first.
//!
//! `NoMemory` is reported where memory ran out.
#![tactic(auto)]

mod chains;
mod ends;
mod law;
mod laws;
mod lt_laws;
mod max_laws;
mod min_laws;
mod outcome;
mod places;
mod settling;
mod simplifying;

pub use laws::{
    each_law_holds, simplified_terms_are_few, simplified_terms_are_reduced, simplifying_keeps_times,
};
pub use simplifying::simplify;
