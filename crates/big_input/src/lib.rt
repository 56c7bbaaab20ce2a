//! Large networks, each made from a number.
//!
//! `NoMemory` is answered if memory ran out.
#![tactic(auto)]

mod draws;
mod generating;
pub mod laws;

pub use generating::big_input;

#[cfg(test)]
mod tests;
