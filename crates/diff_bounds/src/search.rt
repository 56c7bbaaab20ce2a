/// What is asked of a search: how far the number of `asked` has to be raised for the sake of the target's. It looks for
/// distances below the limit, settles no input that is as far as `stop` or farther, and may end as soon as it has found a
/// distance below what is enough.
#[derive(Clone, Copy)]
pub(crate) struct Question {
    pub target: u32,
    pub limit: u64,
    pub stop: u64,
    pub asked: u32,
    pub enough: u64,
}

/// What a search finds for each input: how far its number has to be raised for the sake of the target's, the
/// assumption that asks for it, and in which turn it was settled; and room for the inputs that are reached and not settled.
#[derive(Drop)]
pub(crate) struct Search {
    pub distances: Vec<u64>,
    pub vias: Vec<u32>,
    pub turns: Vec<u32>,
    pub reached: Vec<u32>,
}
