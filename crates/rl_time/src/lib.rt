//! Times of race logic: the clock cycle at which a wire rises, or never; and their texts.
//!
//! The operators are those of Smith, *Space-Time Algebra* (ISCA 2018), and the reading of a time as the rise of a
//! wire is that of Madhavan, Sherwood and Strukov, *Race Logic* (ISCA 2014).
//!
//! `NoMemory` is answered if memory ran out.
#![tactic(auto)]

mod text;
mod time;

pub use text::{put_time, read_time};
pub use time::{NoMemory, Time};
