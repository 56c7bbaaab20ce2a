/// The greatest number of cycles, on either side of 0, in a split or a fact.
pub const MOST_BOUND: i64 = 100_000_000;

/// The most numbers in a chain.
pub const MOST_NUMBERS: usize = 64;

/// The number that each number in a chain is less than.
pub const NUMBERS_END: u32 = 65_536;

/// The most facts of a leaf.
pub const MOST_FACTS: usize = 4096;

/// The most items of a tree.
pub const MOST_ITEMS: usize = 1_000_000;

/// The most trees of a file.
pub const MOST_TREES: usize = 64;
