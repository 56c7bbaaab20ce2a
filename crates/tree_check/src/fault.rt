/// Why a tree isn't valid. The first number is the item's, from 0; the second of `BadChain` is the fact's, from 0, and
/// that of `NotDecided` the network's, 1 or 2.
#[derive(Clone, Copy, Debug, PartialEq, Eq)]
pub enum CheckFault {
    Shape(u32),
    BadChain(u32, u32),
    NotNegative(u32),
    NotDecided(u32, u32),
    Unequal(u32),
    StillOpen(u32),
    NoMemory,
}

/// What is wrong with one item on its path.
#[derive(Clone, Copy, Debug)]
pub enum Flaw {
    BadChain(u32),
    NotNegative,
    NotDecided(u32),
    Unequal,
    StillOpen,
}
