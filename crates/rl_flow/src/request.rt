use crate::times::Times;

/// What is to be done with the files of a command.
#[derive(Drop)]
pub enum Request<'a> {
    /// Compile its source to a module.
    Compile,
    /// Evaluate its source at these times.
    Eval(Times),
    /// Write the network of its table.
    Synth,
    /// Write its network simplified.
    Simplify,
    /// Write the table of its network's output of this name, on times up to this number.
    Tabulate(&'a str, u32),
    /// Simulate its module for so many cycles, with inputs that rise at these times.
    Sim(u32, Times),
    /// The same by activations in a numbered order.
    SimInOrder(u32, Times, u64),
    /// Check by the trees of the third file that the networks of the first two have equal outputs.
    Check,
    /// Decide whether the networks of two files have equal outputs, by trees of at most so many items.
    Compare(u32),
    /// Make a large network from this number, and compile, simulate and compare it.
    Big(u32),
}

/// A parsed command line: the words that name its files, and what is to be done with them.
#[derive(Drop)]
pub struct Command<'a> {
    pub files: &'a [String],
    pub request: Request<'a>,
}
