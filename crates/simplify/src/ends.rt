use term_store::Term;

/// The ends of the two chains at a max, or at a min: `past_first` is where one arrives once the first
/// operand is taken off as often as it goes, as b at `max(a, max(a, b))`, and `past_second` is the same
/// for the second operand.
#[derive(Clone, Copy, Debug)]
pub struct Ends {
    pub past_first: Term,
    pub past_second: Term,
}
