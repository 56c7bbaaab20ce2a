//! The steps of simulators of modules that work only where levels change: activations, clock edges and new inputs.
//!
//! Items are the assigns of a module, then its registers, and a set of marks has each item that may not be up to date. An assign
//! without a mark has its expression's level, and a register without one holds the level of its `next` in each bit. Each step marks
//! the items that name a level that it changes.
#![tactic(auto)]

mod activation;
mod edge;
mod inputs;

pub use activation::{activate, activate_plainly, most_marked};
pub use edge::{clock_edge, is_busy};
pub use inputs::set_inputs;
