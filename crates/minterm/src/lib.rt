//! Synthesis of tables: the term that has the table's values, after Smith (Space-Time Algebra, ISCA 2018).
//!
//! `NoMemory` is reported where memory ran out.
#![tactic(auto)]

mod join;
mod joining;
mod laws;
mod planting;
mod row;
mod synthesis;

pub use laws::{table_names_are_ports, table_terms_are_few, the_term_has_the_tables_values};
pub use synthesis::synth;
