/// Assumptions by one of the two inputs that each names. One that is implied by those before it need not be listed. For each
/// input this is the last that is listed for it, and for each assumption, listed or not, the last one before it that is
/// listed for the same input. Each is one more than the assumption's number, and 0 where there is none.
#[derive(Drop)]
pub(crate) struct ByInput {
    pub lasts: Vec<u32>,
    pub earlier: Vec<u32>,
}

/// Assumptions by the input that each leads to, and by the input that each begins at.
#[derive(Drop)]
pub(crate) struct Ends {
    pub to: ByInput,
    pub from: ByInput,
}
