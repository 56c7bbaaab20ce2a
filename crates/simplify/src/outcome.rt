use term_store::{Node, Term};

/// What a law makes of a node: a term that is there, or a node over terms that are there.
#[derive(Clone, Copy, Debug)]
pub enum Outcome {
    Held(Term),
    Over(Node),
}
