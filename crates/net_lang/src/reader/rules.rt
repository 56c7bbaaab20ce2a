/// The rules of a line, in the order in which they are judged.
#[derive(Clone, Copy, Debug, PartialEq, Eq)]
pub enum Rule {
    Syntax,
    Name,
    Doubled,
    Unknown,
    Count,
    Span,
}

/// Of which form the last line is.
#[derive(Clone, Copy, Debug, PartialEq, Eq)]
pub enum Stage {
    Start,
    Header,
    Inputs,
    Lets,
    Outputs,
}

/// What a line defines.
#[derive(Clone, Copy, Debug, PartialEq, Eq)]
pub enum Target {
    Let,
    Output,
}
