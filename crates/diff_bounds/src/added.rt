use refutation::Chain;

/// The answer to one assumption more. `Fresh`: it can be met together with the others, and they didn't imply it. `Held`:
/// they implied it already. `Contradiction`: no numbers meet it together with the others; the chain runs from an input
/// to itself with a negative sum, and in it the new assumption has the number that is next.
#[derive(Debug, Drop)]
pub enum Added {
    Fresh,
    Held,
    Contradiction(Chain),
}
