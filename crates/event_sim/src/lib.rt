//! A simulator of modules by single activations of assigns, in any order: each activation gives a wire or an output the level of its
//! expression, and a clock edge gives all registers their next values at once.
//!
//! `NoMemory` is answered if memory ran out.
#![tactic(auto)]

mod events;
pub mod laws;
mod orders;
mod passes;
mod run;
mod stretches;

pub use events::Events;
pub use run::{Run, simulate};
