//! Tests of the public calls on modules, their texts and their simulators, against answers known from elsewhere. It has no code of its own.
#![tactic(auto)]

#[cfg(test)]
mod cycles;
#[cfg(test)]
mod events;
#[cfg(test)]
mod reading;
