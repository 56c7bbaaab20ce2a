use refutation::Assumption;
use tree_check::Form;

/// A side of a split that is pending: how long the lists of the split's stage are, what is assumed on this side, and the form that
/// this gives the next place.
#[derive(Clone, Copy, Debug)]
pub struct Later {
    pub depth: usize,
    pub facts: usize,
    pub forms: usize,
    pub side: Assumption,
    pub form: Form,
}
