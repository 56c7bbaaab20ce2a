//! Tests of the public calls on networks, tables, terms and gates, against answers known from elsewhere. It has no code of its own.
#![tactic(auto)]

#[cfg(test)]
mod modules;
#[cfg(test)]
mod network_texts;
#[cfg(test)]
mod rows;
#[cfg(test)]
mod synthesis;
#[cfg(test)]
mod table_texts;
#[cfg(test)]
mod tables;
#[cfg(test)]
mod terms;
#[cfg(test)]
mod texts;
#[cfg(test)]
mod values;
