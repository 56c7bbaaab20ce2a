/// The assumption `x_from - x_to <= bound` on the times of two inputs, in cycles.
#[derive(Clone, Copy, Debug)]
pub struct Assumption {
    pub from: u32,
    pub to: u32,
    pub bound: i64,
}
