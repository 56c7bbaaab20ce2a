use refutation::{Facts, Tree};

/// What the end of a branch shows: facts under which the two terms are equal, or a number for each input at which they differ.
#[derive(Debug, Drop)]
pub enum Ending {
    Equal(Facts),
    Different(Vec<u64>),
}

/// What was found of two terms: a tree of cases that shows them to be equal, a number for each input at which they differ, or a tree
/// with open items where the budget was spent.
#[derive(Debug, Drop)]
pub enum Decision {
    Equal(Tree),
    Different(Vec<u64>),
    Undecided(Tree),
}
