//! Regions: what was planted after a mark is taken away at once.
ghost use Rattle.std.specs.Prelude.{◌≡◌, ◌≤◌, length, take};

use crate::node::Mark;
use crate::store::Store;

impl Store {
    /// A mark, to which the store can be released later.
    pub fn mark(&self) -> Mark
        ensures { result.0 ≡ length self.now.nodes }
    {
        Mark(self.len())
    }

    /// Takes away the nodes that were added after the mark. The others keep their places. It takes no memory.
    pub fn release(&mut self, mark: Mark)
        requires within { mark.0 ≤ length self.old.nodes }
        ensures { self.new.nodes ≡ take mark.0 self.old.nodes }
    {
        self.keep_first(mark.0 as usize);
    }
}
