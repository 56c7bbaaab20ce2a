//! Trees of cases, which certify that two networks have equal outputs: their items, their text, and its reading.
//!
//! `NoMemory` is reported where memory ran out.
#![tactic(auto)]

mod assumption;
mod chain;
mod item;
mod laws;
mod limits;
mod print;
mod reader;
mod tree;

pub use assumption::Assumption;
pub use chain::Chain;
pub use item::{Fact, Facts, Item};
pub use laws::{
    no_cause, one_cause, one_list_of_trees, printing_spells, trees_or_a_cause,
    what_is_spelled_are_trees,
};
pub use limits::{MOST_BOUND, MOST_FACTS, MOST_ITEMS, MOST_NUMBERS, MOST_TREES, NUMBERS_END};
pub use print::print_tree;
pub use reader::{Rule, TreeError, read_tree};
pub use rl_text::Name;
pub use tree::{NamedTree, Tree};
