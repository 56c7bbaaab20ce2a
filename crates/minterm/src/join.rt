/// How two terms are joined: the earlier of both, or the later.
#[derive(Clone, Copy)]
pub enum Join {
    Min,
    Max,
}
