//! From shared terms to gates, and from gates to Verilog modules.
//!
//! `NoMemory` is answered if memory ran out.
#![tactic(auto)]

mod bits;
mod emitting;
mod gates;
pub mod laws;
mod lowering;
mod names;
mod networks;
mod plan;
mod registers;

pub use emitting::emit;
pub use gates::{Delay, Gate, Gates, Line, OutLine};
pub use lowering::{LowerError, lower};
pub use networks::lower_network;
