//! Circuits: their parts, what they do, and when they are valid.
//!
//! What they do, settled levels from cycle to cycle, is after IEEE 1364-2005, for the part of Verilog that they can be
//! written in.
#![tactic(auto)]

mod bit;
pub mod laws;
mod module;
pub mod validity_laws;

pub use bit::{Bit, Target};
pub use module::{Assign, Module, Reg};
