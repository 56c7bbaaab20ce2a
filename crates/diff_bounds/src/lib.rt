//! Bounds on the differences of inputs, as a graph: the inputs are its nodes, and each assumption
//! `x_i - x_j <= w` is an edge of weight w. Numbers meet all assumptions exactly where no cycle has a negative
//! sum, and the least bound that they imply is the sum of a shortest chain (Bellman 1958, Ford 1956).
//!
//! One solution is kept beside the assumptions. It makes the weights of searches non-negative (Johnson 1977), and a
//! new assumption that it doesn't meet either mends it or closes a negative cycle (Cotton and Maler 2006).
//!
//! Inputs are named by their places, from 0, and assumptions by their numbers, in the order in which they were added,
//! from 0. Numbers and bounds are in cycles. `NoMemory` is reported where memory ran out.
#![tactic(auto)]

mod added;
mod asking;
mod bounds;
mod ends;
mod following;
mod judging;
mod laws;
mod leading;
mod listing;
mod pressing;
mod search;
mod searching;

pub use added::Added;
pub use bounds::Bounds;
pub use laws::{least_bounds_are_shortest_sums, met_exactly_without_negative_cycles};
pub use refutation::{Assumption, Chain};
