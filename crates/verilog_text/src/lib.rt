//! The text of modules, in a small part of Verilog: which text spells which module, which rule a text breaks, and the
//! text that is printed for a module.
//!
//! `NoMemory` is answered if memory ran out.
#![tactic(auto)]

mod print;
mod rule;
pub mod spelling_laws;

pub use circuit::{Assign, Bit, Module, Reg, Target, laws, validity_laws};
pub use print::print_module;
pub use rule::Rule;
