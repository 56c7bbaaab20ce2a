/// Where a text of style Race is after some of its bytes: in a comment, after a dash that may begin an arrow, or between,
/// where the next byte is judged by itself.
#[derive(Clone, Copy, Debug, PartialEq, Eq)]
pub enum Place {
    Between,
    Comment,
    Dash,
}
