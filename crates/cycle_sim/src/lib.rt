//! A cycle simulator of modules: the levels of a module, one clock cycle after another. It works only where levels change.
//!
//! `NoMemory` is answered if memory ran out.
#![tactic(auto)]

mod compiling;
pub mod laws;
mod operation;
mod pass;
mod performing;
mod program;
mod running;
mod settle;
mod sim;

pub use running::simulate;
pub use sim::Sim;
