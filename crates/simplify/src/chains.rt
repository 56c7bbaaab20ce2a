//! Chains of max, and of min, and where they end.
ghost use Rattle.std.specs.Prelude.{◌≡◌, ◌<◌, ◌≤◌, length, vec_capacity};
ghost use Rattle.term_store.specs.Nodes.{IsNodes, IsNodeOver};
ghost use Rattle.term_store.specs.Trees.{tree};
ghost use Rattle.term_store.specs.Places.{tree_by_places};
ghost use Rattle.simplify.specs.Past as past;
ghost use Rattle.simplify.specs.Past.{AreEnds, AreEndsOf, IsAt};

use crate::ends::Ends;
use crate::places::{is_same, max_operands, min_operands};
use term_store::{Node, Store, Term};

/// The place of what is left of b once max of a is taken off as often as it is the whole term.
pub fn past_max(store: &Store, ends: &[Ends], a: Term, b: Term) -> Term
    requires nodes { IsNodes store.now.nodes }
    requires ends { AreEnds store.now.nodes ends.now }
    requires a { a.0 < length store.now.nodes }
    requires b { b.0 < length ends.now }
    ensures { IsAt store.now.nodes result (past.past_max (tree store.now.nodes a.0) (tree store.now.nodes b.0)) }
{
    let Some((x, y)) = max_operands(store, b) else {
        return b;
    };
    if is_same(store, a, x) {
        ends[b.0 as usize].past_first
    } else if is_same(store, a, y) {
        ends[b.0 as usize].past_second
    } else {
        b
    }
}

/// The place of what is left of b once min of a is taken off as often as it is the whole term.
pub fn past_min(store: &Store, ends: &[Ends], a: Term, b: Term) -> Term
    requires nodes { IsNodes store.now.nodes }
    requires ends { AreEnds store.now.nodes ends.now }
    requires a { a.0 < length store.now.nodes }
    requires b { b.0 < length ends.now }
    ensures { IsAt store.now.nodes result (past.past_min (tree store.now.nodes a.0) (tree store.now.nodes b.0)) }
{
    let Some((x, y)) = min_operands(store, b) else {
        return b;
    };
    if is_same(store, x, a) {
        ends[b.0 as usize].past_first
    } else if is_same(store, y, a) {
        ends[b.0 as usize].past_second
    } else {
        b
    }
}

/// The ends at a node over places whose ends are noted. A node that is no max and no min has fillers.
fn ends_of(store: &Store, ends: &[Ends], node: Node) -> Ends
    requires nodes { IsNodes store.now.nodes }
    requires ends { AreEnds store.now.nodes ends.now }
    requires over { IsNodeOver (length ends.now) node }
    ensures { AreEndsOf store.now.nodes (tree_by_places store.now.nodes node) result }
{
    match node {
        Node::Max(a, b) => Ends {
            past_first: past_max(store, ends, a, b),
            past_second: past_max(store, ends, b, a),
        },
        Node::Min(a, b) => Ends {
            past_first: past_min(store, ends, a, b),
            past_second: past_min(store, ends, b, a),
        },
        _ => Ends {
            past_first: Term(0),
            past_second: Term(0),
        },
    }
}

/// Notes the ends at the places that have none yet, in order, so that each place has its own.
pub fn note_ends(store: &Store, ends: &mut Vec<Ends>)
    requires nodes { IsNodes store.now.nodes }
    requires ends { AreEnds store.now.nodes ends.old.items }
    requires capacity { length store.now.nodes ≤ vec_capacity ends.old }
    ensures ends { AreEnds store.now.nodes ends.new.items }
    ensures all { length ends.new.items ≡ length store.now.nodes }
    ensures capacity { vec_capacity ends.new ≡ vec_capacity ends.old }
{
    for place in ends.len() as u32..store.len() {
        let next = ends_of(store, ends, store.node(Term(place)));
        ends.push_reserved(next);
    }
}
