/// An expression as it is written, whose names and numbers are the text's. `Low` and `High` are `1'b0` and `1'b1`,
/// `Bit(n, k)` is `n[k]`, `Group(a)` is `(a)`.
#[derive(Drop)]
pub enum Written<'a> {
    Low,
    High,
    Name(&'a [u8]),
    Bit(&'a [u8], &'a [u8]),
    Not(Box<Written<'a>>),
    Group(Box<Written<'a>>),
    And(Box<Written<'a>>, Box<Written<'a>>),
    Or(Box<Written<'a>>, Box<Written<'a>>),
}

/// What a register takes: an expression, or `Shifted(r, k, e)` for `{r[k:0], e}`.
#[derive(Drop)]
pub enum Next<'a> {
    Whole(Written<'a>),
    Shifted(&'a [u8], &'a [u8], Written<'a>),
}
