//! The text of networks: what it spells, the reading of it, and what its printing is.
//!
//! `NoMemory` is reported where memory ran out.
#![tactic(auto)]

mod printed;
mod reader;

pub use net_model::{Binding, Expr, Name, Network, are_port_names, is_port_name, print_network};
pub use printed::{printing_is_read, printing_spells};
pub use reader::{
    NetError, Rule, a_network_or_a_cause, no_cause, one_cause, one_network, read_network,
    what_is_spelled_is_a_network,
};
