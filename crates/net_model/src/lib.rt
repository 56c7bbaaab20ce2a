//! Networks of race logic: what they are, their meaning, and their text.
//!
//! `NoMemory` is reported where memory ran out.
#![tactic(auto)]

mod assume;
mod ast;
mod limits;
mod names;
mod print;

pub use assume::Assume;
pub use ast::{Binding, Expr, Network};
pub use limits::{MOST_DELAYS, MOST_JOINS, MOST_NAME_BYTES, MOST_NESTING, MOST_PORTS, MOST_SPAN};
pub use names::{are_port_names, is_let_name, is_port_name};
pub use print::print_network;
pub use rl_text::Name;
