use verilog_syntax::Written;

/// A part of an expression, and whether `&` or `|` joins it to what is before it.
#[derive(Drop)]
pub struct Joint<'a> {
    pub is_and: bool,
    pub part: Written<'a>,
}

/// An expression as it is taken apart: a part alone, or what is before the last sign outside of groups, and the part after it.
#[derive(Drop)]
pub enum Halves<'a> {
    Single(Written<'a>),
    Joined(Written<'a>, Joint<'a>),
}
