//! Soundness of tables, and tabulation of networks.
//!
//! Causal and invariant functions are those of Smith, *Space-Time Algebra* (ISCA 2018).
//!
//! `NoMemory` is reported where memory ran out.
#![tactic(auto)]

mod checking;
mod fault;
mod laws;
mod output;
mod tabulation;

pub use checking::check_rows;
pub use fault::{RowFault, TabError};
pub use laws::{
    a_window_or_a_cause, conflict_by_places, one_row_fault, one_window_cause, sound_or_fault,
    tables_are_causal, tables_are_invariant,
};
pub use tabulation::tabulate;
