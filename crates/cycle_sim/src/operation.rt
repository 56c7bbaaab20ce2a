/// How many inputs, wires and outputs have places in a list of levels. Place 0 is low; the inputs follow it, then the wires, then the
/// outputs.
#[derive(Clone, Copy)]
pub struct Places {
    pub inputs: u32,
    pub wires: u32,
    pub outs: u32,
}

/// `first | (second & third)` of literals. A literal is twice a place, for the level there, or one more, for the other level, as in the
/// AIGER format of and-inverter graphs.
#[derive(Clone, Copy)]
pub struct Formula {
    pub first: u32,
    pub second: u32,
    pub third: u32,
}

/// A place takes the level of a formula.
#[derive(Clone, Copy)]
pub struct Operation {
    pub to: u32,
    pub formula: Formula,
}

/// A place takes the level of a bit of a register.
#[derive(Clone, Copy)]
pub struct Tap {
    pub to: u32,
    pub reg: u32,
    pub bit: u32,
}
