//! The nodes of a store.
use std::fmt;

/// A place in a store, from 0.
#[derive(Clone, Copy, Debug, PartialEq, Eq, Hash)]
pub struct Term(pub u32);

/// A length that a store had.
#[derive(Clone, Copy, Debug, PartialEq, Eq)]
pub struct Mark(pub u32);

/// One operator over places of the store. `Input` holds the place of a network's input, from 0;
/// `Inc` holds a number of cycles, 1 to 1,000,000.
#[derive(Clone, Copy, Debug, PartialEq, Eq, Hash)]
pub enum Node {
    Input(u32),
    Never,
    Min(Term, Term),
    Max(Term, Term),
    Lt(Term, Term),
    Inc(Term, u32),
}

/// Why a node was not taken: the store holds 262,144 nodes, or memory ran out.
#[derive(Clone, Copy, Debug, PartialEq, Eq)]
pub enum StoreError {
    Full,
    NoMemory,
}

impl fmt::Display for StoreError {
    fn fmt<W: fmt::Write>(&self, f: &mut fmt::Formatter<W>) -> fmt::Result {
        f.write_str(match self {
            StoreError::Full => "the store is full",
            StoreError::NoMemory => "out of memory",
        })
    }
}
