//! Tests of the public calls on times, words of texts, files and sinks, against answers known from elsewhere. It has no code of its own.
#![tactic(auto)]

#[cfg(test)]
mod outside;
#[cfg(test)]
mod times;
#[cfg(test)]
mod tokens;
