//! Reading modules: which module a text of a small part of Verilog spells, or which rule it breaks first.
//!
//! `NoMemory` is answered if memory ran out.
#![tactic(auto)]

mod actions;
mod declarations;
mod draft;
mod error;
mod expressions;
mod joint;
mod judged;
mod judging;
mod names;
mod reader;
mod scope;
mod spine;

pub use error::VerilogError;
pub use reader::read_module;
