use rl_text::NameMap;

/// What a name means, by its place among the inputs or the lets.
#[derive(Clone, Copy, Debug, PartialEq, Eq)]
pub enum Place {
    Input(usize),
    Let(usize),
    Output,
}

/// What is known of a name: what it means, and its span in cycles.
#[derive(Clone, Copy, Debug, PartialEq, Eq)]
pub struct Known {
    pub place: Place,
    pub span: u32,
}

/// The names that are declared so far.
pub type Scope<'a> = NameMap<'a, Known>;

/// Measures of an expression: whether each of its names is an input or a let, how many of `min`, `max` and `lt` and
/// how many `inc` it has, each up to 20,000, and its span in cycles, up to 1,000,001.
#[derive(Clone, Copy, Debug, PartialEq, Eq)]
pub struct Measured {
    pub known: bool,
    pub joins: u32,
    pub delays: u32,
    pub span: u32,
}
