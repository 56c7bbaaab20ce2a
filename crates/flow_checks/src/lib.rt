//! Tests of the top call with devices that fail, over the system, and on what is too large for a script of calls. It has no code of its
//! own.
#![tactic(auto)]

#[cfg(test)]
mod commands;
#[cfg(test)]
mod large;
