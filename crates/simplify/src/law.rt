//! The laws, over the places of a store.
ghost use Rattle.std.specs.Prelude.{◌≡◌, ◌<◌, ◌≤◌, ◌+◌, length};
ghost use Rattle.term_store.specs.Tree.{Inc, span};
ghost use Rattle.term_store.specs.Nodes.{IsNodes, IsNodeOver};
ghost use Rattle.term_store.specs.Trees.{tree};
ghost use Rattle.term_store.specs.Places.{tree_by_places};
ghost use Rattle.simplify.specs.Simplified.{law8, law9, first_law};
ghost use Rattle.simplify.specs.Outcomes.{IsAnswer, inc_laws, stride};
ghost use Rattle.simplify.specs.Past.{AreEnds};

use crate::ends::Ends;
use crate::lt_laws::lt_law;
use crate::max_laws::max_law;
use crate::min_laws::min_law;
use crate::outcome::Outcome;
use crate::places::{inc_operand, is_never};
use term_store::{Node, Store, Term};

/// `inc(inc(a, c), d)` is `inc(a, c + d)`.
fn inc_of_inc(store: &Store, a: Term, cycles: u32) -> Option<Outcome>
    requires nodes { IsNodes store.now.nodes }
    requires a { a.0 < length store.now.nodes }
    requires short { span (tree store.now.nodes a.0) + cycles ≤ 1000000 }
    ensures { IsAnswer store.now.nodes (law8 (Inc (tree store.now.nodes a.0) cycles)) result }
{
    let (x, before) = inc_operand(store, a)?;
    Some(Outcome::Over(Node::Inc(x, before + cycles)))
}

/// `inc(never, c)` is never.
fn inc_of_never(store: &Store, a: Term, cycles: u32) -> Option<Outcome>
    requires nodes { IsNodes store.now.nodes }
    requires a { a.0 < length store.now.nodes }
    ensures { IsAnswer store.now.nodes (law9 (Inc (tree store.now.nodes a.0) cycles)) result }
{
    if is_never(store, a) {
        Some(Outcome::Held(a))
    } else {
        None
    }
}

/// The first of the laws that fits `inc(a, cycles)`.
fn inc_law(store: &Store, a: Term, cycles: u32) -> Option<Outcome>
    requires nodes { IsNodes store.now.nodes }
    requires a { a.0 < length store.now.nodes }
    requires short { span (tree store.now.nodes a.0) + cycles ≤ 1000000 }
    ensures { IsAnswer store.now.nodes (first_law inc_laws (Inc (tree store.now.nodes a.0) cycles)) result }
{
    if let Some(outcome) = inc_of_inc(store, a, cycles) {
        return Some(outcome);
    }
    inc_of_never(store, a, cycles)
}

/// What the law with the lowest number that fits makes of a node, as often as it fits if it is a law
/// that goes along a chain. The node's term is at most 1,000,000 cycles later than an input.
pub fn law(store: &Store, ends: &[Ends], node: Node) -> Option<Outcome>
    requires nodes { IsNodes store.now.nodes }
    requires ends { AreEnds store.now.nodes ends.now }
    requires all { length ends.now ≡ length store.now.nodes }
    requires over { IsNodeOver (length store.now.nodes) node }
    requires short { span (tree_by_places store.now.nodes node) ≤ 1000000 }
    ensures { IsAnswer store.now.nodes (stride (tree_by_places store.now.nodes node)) result }
{
    match node {
        Node::Input(_) | Node::Never => None,
        Node::Min(a, b) => min_law(store, a, b),
        Node::Max(a, b) => max_law(store, a, b),
        Node::Lt(a, b) => lt_law(store, ends, a, b),
        Node::Inc(a, cycles) => inc_law(store, a, cycles),
    }
}
