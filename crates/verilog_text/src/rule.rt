/// The rules of a module's text, in the order in which they are judged. `Syntax` is judged over the whole text first;
/// the others statement by statement.
#[derive(Clone, Copy, Debug, PartialEq, Eq)]
pub enum Rule {
    Syntax,
    Name,
    Order,
    Width,
    Limit,
}
