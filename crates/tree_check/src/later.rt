use refutation::Assumption;

/// The no side of a split, which is pending: how long the split's path is, and the side's assumption.
#[derive(Clone, Copy, Debug)]
pub struct Later {
    pub depth: usize,
    pub side: Assumption,
}
