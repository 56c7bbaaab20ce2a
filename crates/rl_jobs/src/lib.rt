//! What commands do with the texts of their files: each job takes texts and gives a text, or the fault for which it is
//! refused. Nothing is read or written here.
//!
//! `NoMemory` is answered if memory ran out.
#![tactic(auto)]

pub mod check;
pub mod compile;
mod error;
pub mod eval;
mod fault;
pub mod laws;
mod names;
pub mod pairs;
mod reading;
pub mod simplification;
mod source;
pub mod synth;
pub mod tabulate;

pub use error::JobError;
pub use fault::Fault;
pub use source::Source;
