//! A line as it is read.
use crate::chain::Chain;

/// A bound on the difference of two inputs, as a line says it. A number that is greater than its limit counts as the
/// least that is: a place as 64, and a bound as 100,000,001 on either side of 0.
#[derive(Clone, Copy)]
pub struct Difference {
    pub from: u32,
    pub to: u32,
    pub bound: i64,
}

/// A line. A number of a chain that is 65,536 or more counts as 65,536.
#[derive(Drop)]
pub enum Form<'a> {
    Header,
    Begin(&'a [u8]),
    Split(Difference),
    Leaf,
    Fact(Difference, Chain),
    Closed(Chain),
    Open,
    End,
}
