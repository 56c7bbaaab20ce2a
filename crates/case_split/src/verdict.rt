use refutation::Tree;
use rl_time::Time;

/// What was found of two outputs. `Equal`: a valid tree, which shows that they are equal at all times; no valid tree has fewer items.
/// `Different`: a time for each input, at which they differ. `Undecided`: the budget is spent, and no valid tree has as few items; the
/// tree has open items.
#[derive(Debug, Drop)]
pub enum Verdict {
    Equal(Tree),
    Different(Vec<Time>),
    Undecided(Tree),
}
