//! The values of networks, and what holds of them all: each output is a causal and invariant
//! function of the inputs.
//!
//! Causal and invariant functions are those of Smith, *Space-Time Algebra* (ISCA 2018).
//!
//! `NoMemory` is reported where memory ran out.
#![tactic(auto)]

mod evaluation;
mod laws;

pub use evaluation::eval;
pub use laws::{numbers_decide, numbers_decide_under, outputs_are_causal, outputs_are_invariant};
