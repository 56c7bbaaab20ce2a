//! Statements of a small part of Verilog: which statement opens the words of a text, or where none does.
//!
//! `NoMemory` is answered if memory ran out.
#![tactic(auto)]

mod error;
mod forms;
mod parser;
mod stage;
mod statement;
mod syntax;
mod words;
mod written;

pub use error::SyntaxError;
pub use parser::next_statement;
pub use stage::Stage;
pub use statement::{Always, Form, Statement};
pub use written::{Next, Written};
