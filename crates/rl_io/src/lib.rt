//! Where files are read and text is written: a shelf of files and a sink of bytes, as traits, over memory and over
//! the system.
//!
//! `NoMemory` is answered if memory ran out.
#![tactic(auto)]

pub mod laws;
pub mod loading;
pub mod mem_shelf;
pub mod mem_sink;
pub mod putting;
pub mod shelf;
pub mod sink;
pub mod system;

pub use laws::no_planned_fault;
pub use loading::{LARGEST_LIMIT, LoadError, load};
pub use mem_shelf::{MemShelf, are_distinct};
pub use mem_sink::MemSink;
pub use putting::{SinkFault, put_all};
pub use shelf::{Fetched, Shelf};
pub use sink::{Put, Sink};
pub use system::{FileShelf, StdSink};
