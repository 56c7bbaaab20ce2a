//! Nodes in the form in which they are valued.

/// The operators, in the order in which their answers are computed.
#[derive(Clone, Copy, Debug, PartialEq, Eq)]
pub enum Operator {
    Min,
    Max,
    Lt,
    Inc,
}

/// An operator over the places `first` and `second`. `Inc` adds `by` cycles to the first, and has the same place as its second.
#[derive(Clone, Copy, Debug, PartialEq, Eq)]
pub struct Operation {
    pub operator: Operator,
    pub first: u32,
    pub second: u32,
    pub by: u32,
}

/// How the time of one node is found.
#[derive(Clone, Copy, Debug, PartialEq, Eq)]
pub enum Step {
    Input(u32),
    Never,
    Operation(Operation),
}
