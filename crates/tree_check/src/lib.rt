//! The checker of trees of cases. A tree that it accepts is valid: the outputs that it is for are equal at all times
//! that meet the premises.
//!
//! `NoMemory` is reported where memory ran out.
#![tactic(auto)]

mod cell;
mod chain;
mod evaluation;
mod fault;
mod form;
mod later;
mod laws;
mod leaf;
mod marking;
mod output;
mod shape;
mod stack;
mod table;
mod walk;

pub use fault::CheckFault;
pub use form::Form;
pub use laws::{valid_or_fault, valid_trees_are_trees, valid_trees_decide};
pub use walk::check;
