use super::rules::Stage;
use crate::item::Facts;
use crate::tree::{NamedTree, Tree};
use rl_text::Name;

/// What is kept of the lines before: the trees that have ended, and the name and the items of the tree that is open. The
/// facts are those of the leaf that is open, which is not yet among the items.
#[derive(Drop)]
pub struct Draft {
    pub stage: Stage,
    pub trees: Vec<NamedTree>,
    pub name: Name,
    pub tree: Tree,
    pub facts: Facts,
}
