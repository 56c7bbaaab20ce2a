/// The rules of a line, in the order in which they are judged.
#[derive(Clone, Copy, Debug, PartialEq, Eq)]
pub enum Rule {
    Syntax,
    Range,
    Long,
    Count,
}

/// What the last line is. `Begun` is after the line `tree`; `Leaf` after a leaf and its facts, and `Item` after any
/// other item; `Ended` after the line `end`.
#[derive(Clone, Copy)]
pub enum Stage {
    Start,
    Header,
    Begun,
    Leaf,
    Item,
    Ended,
}
