use refutation::NamedTree;
use rl_time::Time;

/// What was found of two networks. `Equal`: a tree for each output, in order, under the output's name. `Different`: the place of the
/// first output that isn't equal, from 0, and a time for each input at which it differs. `Undecided`: the place of the first output
/// that isn't decided, from 0, and how many cases were opened for it. The outputs before that place are equal.
#[derive(Debug, Drop)]
pub enum Compared {
    Equal(Vec<NamedTree>),
    Different(u32, Vec<Time>),
    Undecided(u32, u32),
}
