/// An assumption on the times of a network's inputs: input `from` rises at most `by` cycles later than input `to`. Both
/// are places in the network's list of inputs, from 0.
#[derive(Debug, Clone, Copy)]
pub struct Assume {
    pub from: u32,
    pub to: u32,
    pub by: u32,
}
