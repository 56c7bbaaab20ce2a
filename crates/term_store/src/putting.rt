ghost use Rattle.std.specs.Prelude.{◌+◌, ◌<◌, ◌≤◌, length};
ghost use Rattle.term_store.specs.Nodes.{IsNodeOver};
ghost use Rattle.term_store.specs.Places.{tree_by_places};
ghost use Rattle.term_store.specs.Planting.{IsPlanted};

use crate::node::{Node, Term};
use crate::store::Store;

impl Store {
    /// Plants the term of a node whose operands are in the store, and answers its place: for callers who made room by
    /// `reserve`, so that it can't fail.
    pub fn put(&mut self, node: Node) -> Term
        requires over { IsNodeOver (length self.old.nodes) node }
        requires places { length self.old.nodes < 262144 }
        requires memory { 0 < self.old.spare }
        ensures planted { IsPlanted self.old.nodes self.new.nodes (tree_by_places self.old.nodes node) result }
        ensures few { length self.new.nodes ≤ length self.old.nodes + 1 }
        ensures spare { self.old.spare ≤ self.new.spare + 1 }
    {
        self.rules();
        self.keep(node)
    }
}
