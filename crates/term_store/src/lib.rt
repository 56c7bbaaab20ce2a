//! A store of shared terms: each distinct node once, in the order of the first insertion.
//!
//! `NoMemory` is reported where memory ran out.
#![tactic(auto)]

mod build;
mod compact;
mod extract;
mod laws;
mod node;
mod place_laws;
mod putting;
mod reach;
mod region;
mod step;
mod store;
mod times;

pub use laws::{
    network_names_are_ports, network_terms_are_few, no_two_places_alike, reached_places,
    short_delays_need_few_bits, terms_have_the_networks_values,
};
pub use node::{Mark, Node, StoreError, Term};
pub use place_laws::{
    places_count_subterms, planted_terms_stay, reached_places_are_closed, terms_follow_nodes,
    terms_of_places_stay,
};
pub use reach::reached;
pub use store::Store;
pub use times::Evaluator;
