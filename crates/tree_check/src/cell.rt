/// The least bound of a pair of inputs, by the facts of the leaf with this stamp.
#[derive(Clone, Copy, Debug)]
pub struct Cell {
    pub stamp: u32,
    pub bound: i64,
}
