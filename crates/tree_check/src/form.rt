/// What an expression is where some bounds are known: never, the input at a place plus a number of cycles, or undecided.
#[derive(Clone, Copy, Debug)]
pub enum Form {
    Never,
    Plus(u32, u32),
    Undecided,
}
