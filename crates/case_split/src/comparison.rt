use tree_check::Form;

/// The comparison `x_from + from_cycles <= x_to + to_cycles` of two inputs, which are named by their places, from 0.
#[derive(Clone, Copy, Debug)]
pub struct Comparison {
    pub from: u32,
    pub from_cycles: u32,
    pub to: u32,
    pub to_cycles: u32,
}

/// A comparison, and the form of an operator where it is so and where it isn't.
#[derive(Clone, Copy, Debug)]
pub struct Choice {
    pub comparison: Comparison,
    pub yes: Form,
    pub no: Form,
}

/// What is found of an operator from the forms of its operands: its own form, or that a comparison chooses between two.
#[derive(Clone, Copy, Debug)]
pub enum Step {
    Settled(Form),
    Chosen(Choice),
}
