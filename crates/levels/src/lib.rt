//! What every simulator of modules needs: the levels of a module, the level of an expression and which operands it depends on, a
//! clock edge, registers and sets of numbers in words of 64 bits, and rows of digits.
//!
//! `NoMemory` is answered if memory ran out.
#![tactic(auto)]

mod digits;
mod edge;
pub mod laws;
mod levels;
mod marks;
mod mention;
mod mentions;
mod readers;
mod rises;
mod row;
mod tally;

pub use digits::{empty_rows, has_risen, push_digits, set_levels};
pub use edge::clock_edge;
pub use levels::Levels;
pub use marks::Marks;
pub use mentions::readers_of;
pub use readers::Readers;
pub use rises::next_rise;
pub use row::all_low;
