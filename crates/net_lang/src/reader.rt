//! Reading a network.
mod define;
mod draft;
mod error;
mod form;
mod inputs;
mod judge;
mod laws;
mod line;
mod measure;
mod network;
mod reading;
mod rules;
mod scope;
mod word;
mod written;

pub use draft::Draft;
pub use error::NetError;
pub use laws::{
    a_network_or_a_cause, no_cause, one_cause, one_network, what_is_spelled_is_a_network,
};
pub use network::read_network;
pub use rules::Rule;
