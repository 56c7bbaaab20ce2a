/// An expression of a module. `Input` and `Wire` are places in the module's lists; `Reg(r, k)` is bit k of
/// register r, both counted from 0.
#[derive(Debug, Drop)]
pub enum Bit {
    Zero,
    One,
    Input(u32),
    Wire(u32),
    Reg(u32, u32),
    Not(Box<Bit>),
    And(Box<Bit>, Box<Bit>),
    Or(Box<Bit>, Box<Bit>),
}

/// What an assign drives: a wire or an output, by its place in the module's list.
#[derive(Clone, Copy, Debug, PartialEq, Eq)]
pub enum Target {
    Wire(u32),
    Out(u32),
}
