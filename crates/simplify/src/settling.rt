//! A node by law after law, until none fits.
ghost use Rattle.std.specs.Prelude.{◌≡◌, ◌<◌, ◌≤◌, length};
ghost use Rattle.term_store.specs.Tree.{span};
ghost use Rattle.term_store.specs.Nodes.{IsNodes, IsNodeOver};
ghost use Rattle.term_store.specs.Places.{tree_by_places};
ghost use Rattle.simplify.specs.Simplified.{settled};
ghost use Rattle.simplify.specs.Outcomes.{outcome_tree, IsOutcomeOver};
ghost use Rattle.simplify.specs.Past.{AreEnds};

use crate::ends::Ends;
use crate::law::law;
use crate::outcome::Outcome;
use term_store::{Node, Store};

/// The node of an outcome.
fn node_of(store: &Store, outcome: Outcome) -> Node
    requires nodes { IsNodes store.now.nodes }
    requires over { IsOutcomeOver (length store.now.nodes) outcome }
    ensures over { IsNodeOver (length store.now.nodes) result }
    ensures tree { tree_by_places store.now.nodes result ≡ outcome_tree store.now.nodes outcome }
{
    match outcome {
        Outcome::Held(term) => store.node(term),
        Outcome::Over(node) => node,
    }
}

/// What a node comes to, law by law. Its term is at most 1,000,000 cycles later than an input.
pub fn settle(store: &Store, ends: &[Ends], node: Node) -> Node
    requires nodes { IsNodes store.now.nodes }
    requires ends { AreEnds store.now.nodes ends.now }
    requires all { length ends.now ≡ length store.now.nodes }
    requires over { IsNodeOver (length store.now.nodes) node }
    requires short { span (tree_by_places store.now.nodes node) ≤ 1000000 }
    ensures over { IsNodeOver (length store.now.nodes) result }
    ensures tree { tree_by_places store.now.nodes result ≡ settled (tree_by_places store.now.nodes node) }
{
    let mut last = node;
    while let Some(outcome) = law(store, ends, last) {
        last = node_of(store, outcome);
    }
    last
}
