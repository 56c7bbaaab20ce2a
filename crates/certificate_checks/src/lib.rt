//! Tests of the public calls on trees of cases and on bounds of differences, against answers known from elsewhere. It has no code of its own.
#![tactic(auto)]

#[cfg(test)]
mod decisions;
#[cfg(test)]
mod differences;
#[cfg(test)]
mod tree_texts;
#[cfg(test)]
mod trees;
