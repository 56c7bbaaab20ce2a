//! A store without what no root reaches.
ghost use Rattle.std.specs.Prelude.{◌≡◌, ◌∷◌, ◌++◌, ◌<◌, ◌≤◌, ◌+◌, [], length, map, IfOk, OnOk, OnErr};
ghost use Rattle.std.specs.List.{All};
ghost use Rattle.term_store.specs.Nodes.{IsNodes, IsNodeOver};
ghost use Rattle.term_store.specs.Trees.{trees, trees_at};
ghost use Rattle.term_store.specs.Compacted as compacted;
ghost use Rattle.term_store.specs.Compacted.{reached_trees, new_place, HaveOperands, AreMoved};

use crate::node::{Node, Term};
use crate::reach::reached;
use crate::store::Store;
use rl_time::NoMemory;
use std::alloc::Global;

impl Store {
    /// A store of what the roots reach and nothing else, in the order that it has here, and the place of each
    /// root there. The roots are places of this store.
    pub fn part(&self, alloc: Global, roots: &[Term]) -> Result<(Store, Vec<Term>), NoMemory>
        requires roots { All (λ t. t.0 < length self.now.nodes) roots.now }
        ensures nodes { IfOk result (λ part. trees part.0.nodes ≡ reached_trees self.now.nodes roots.now) }
        ensures terms { IfOk result (λ part. trees_at part.0.nodes part.1.items ≡ trees_at self.now.nodes roots.now) }
        ensures within { IfOk result (λ part. All (λ t. t.0 < length part.0.nodes) part.1.items) }
        ensures fewer { IfOk result (λ part. length part.0.nodes ≤ length self.now.nodes) }
    {
        self.rules();
        let marks = reached(alloc, self, roots)?;
        let (kept, moved) = keep_marked(alloc, self, &marks)?;
        let places = move_roots(alloc, &moved, roots)?;
        Ok((kept, places))
    }

    /// Takes away the places that no root reaches. The others stay in their order, and the new place
    /// of each root is answered. The roots are places of the store. If memory ran out, nothing changes.
    pub fn compact(&mut self, alloc: Global, roots: &[Term]) -> Result<Vec<Term>, NoMemory>
        requires roots { All (λ t. t.0 < length self.old.nodes) roots.now }
        ensures nodes { OnOk result (trees self.new.nodes ≡ reached_trees self.old.nodes roots.now) }
        ensures terms { IfOk result (λ places. trees_at self.new.nodes places.items ≡ trees_at self.old.nodes roots.now) }
        ensures within { IfOk result (λ places. All (λ t. t.0 < length self.new.nodes) places.items) }
        ensures fewer { length self.new.nodes ≤ length self.old.nodes }
        ensures unchanged { OnErr result (self.new.nodes ≡ self.old.nodes) }
    {
        let (part, places) = self.part(alloc, roots)?;
        *self = part;
        Ok(places)
    }
}

/// A store of the marked places, in order, and the new place of each. The operands of each marked
/// place are marked.
fn keep_marked(alloc: Global, store: &Store, marks: &[bool]) -> Result<(Store, Vec<Term>), NoMemory>
    requires nodes { IsNodes store.now.nodes }
    requires marks { length marks.now ≡ length store.now.nodes }
    requires operands { HaveOperands store.now.nodes marks.now }
    ensures moved { IfOk result (λ kept. AreMoved store.now.nodes marks.now (length store.now.nodes) kept.0 kept.1.items) }
{
    let mut kept = Store::new(alloc)?;
    kept.reserve(store.len())?;
    let mut moved = Vec::new(alloc);
    for place in 0..store.len() {
        let to = keep_place(&mut kept, store, marks, &moved, place);
        moved.push(to)?;
    }
    Ok((kept, moved))
}

/// Adds the node of a place where it is marked, over the new places of its operands, and answers its
/// new place. For another place the answer is a filler.
fn keep_place(kept: &mut Store, store: &Store, marks: &[bool], moved: &[Term], place: u32) -> Term
    requires nodes { IsNodes store.now.nodes }
    requires within { place < length store.now.nodes }
    requires marks { length marks.now ≡ length store.now.nodes }
    requires operands { HaveOperands store.now.nodes marks.now }
    requires before { AreMoved store.now.nodes marks.now place kept.old moved.now }
    ensures after { AreMoved store.now.nodes marks.now (place + 1) kept.new (moved.now ++ result ∷ []) }
{
    if !marks[place as usize] {
        return Term(0);
    }
    kept.keep(moved_node(moved, store.node(Term(place))))
}

/// The node over the new places of its operands.
fn moved_node(moved: &[Term], node: Node) -> Node
    requires over { IsNodeOver (length moved.now) node }
    ensures node { result ≡ compacted.moved_node moved.now node }
{
    match node {
        Node::Input(i) => Node::Input(i),
        Node::Never => Node::Never,
        Node::Min(a, b) => Node::Min(moved[a.0 as usize], moved[b.0 as usize]),
        Node::Max(a, b) => Node::Max(moved[a.0 as usize], moved[b.0 as usize]),
        Node::Lt(a, b) => Node::Lt(moved[a.0 as usize], moved[b.0 as usize]),
        Node::Inc(a, cycles) => Node::Inc(moved[a.0 as usize], cycles),
    }
}

/// The new places of the roots.
fn move_roots(alloc: Global, moved: &[Term], roots: &[Term]) -> Result<Vec<Term>, NoMemory>
    requires roots { All (λ t. t.0 < length moved.now) roots.now }
    ensures places { IfOk result (λ places. places.items ≡ map (λ t. new_place moved.now t.0) roots.now) }
{
    let mut places = Vec::new(alloc);
    for root in roots {
        places.push(moved[root.0 as usize])?;
    }
    Ok(places)
}
