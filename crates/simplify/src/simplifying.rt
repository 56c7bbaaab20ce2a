//! The terms of a store, simplified from the front to the back.
ghost use Rattle.std.specs.Prelude.{◌≡◌, ◌∷◌, ◌++◌, ◌<◌, ◌≤◌, ◌+◌, ℕ, List, [], true, false, length, map, IfOk, OnOk, OnErr, vec_capacity};
ghost use Rattle.std.specs.List.{All, AllByRecursion};
ghost use Rattle.rl_time.specs.declared.time.Time.{Time};
ghost use Rattle.term_store.specs.Tree.{value, span};
ghost use Rattle.term_store.specs.Subterms.{join_count, delay_count};
ghost use Rattle.term_store.specs.Nodes.{IsNodes, IsNodeOver};
ghost use Rattle.term_store.specs.Trees.{tree, trees_at, plant, plant_one, IsPrefix};
ghost use Rattle.term_store.specs.Places.{is_marked, tree_by_places};
ghost use Rattle.term_store.specs.Planting.{IsPlanted};
ghost use Rattle.term_store.specs.Compacted.{trees_where, reached_trees};
ghost use Rattle.term_store.specs.Room.{HasRoom, TakesRoom};
ghost use Rattle.simplify.specs.Laws.{IsReduced};
ghost use Rattle.simplify.specs.Simplified.{simplified};
ghost use Rattle.simplify.specs.Passing.{AreMarked, AreSimplified, HasSimplified};
ghost use Rattle.simplify.specs.Past.{AreEnds};
ghost use Rattle.term_store.specs.Compacted.{new_place, moved_node};

use crate::chains::note_ends;
use crate::ends::Ends;
use crate::settling::settle;
use rl_time::NoMemory;
use std::alloc::Global;
use term_store::{Node, Store, Term, reached};

/// Simplifies the terms of the roots, and answers their places: each term that they reach is simplified
/// and planted, in the order of the store. The laws are applied to operands first, and always the one
/// with the lowest number that fits. What was in the store stays there, and at most as many nodes are
/// added as it holds; if memory ran out, nothing changes. The store holds at
/// most 131,072 nodes before, and the terms are at most 1,000,000 cycles later than an input.
pub fn simplify(alloc: Global, store: &mut Store, roots: &[Term]) -> Result<Vec<Term>, NoMemory>
    requires room { length store.old.nodes ≤ 131072 }
    requires roots { All (λ t. t.0 < length store.old.nodes) roots.now }
    requires short { AllByRecursion (λ t. span t ≤ 1000000) (trees_at store.old.nodes roots.now) }
    ensures nodes { OnOk result (store.new.nodes ≡ plant store.old.nodes (map simplified (reached_trees store.old.nodes roots.now))) }
    ensures grown { IsPrefix store.old.nodes store.new.nodes }
    ensures few { length store.new.nodes ≤ length store.old.nodes + length store.old.nodes }
    ensures within { IfOk result (λ places. All (λ t. t.0 < length store.new.nodes) places.items) }
    ensures terms { IfOk result (λ places. trees_at store.new.nodes places.items ≡ map simplified (trees_at store.old.nodes roots.now)) }
    ensures values { IfOk result (λ places. (x : List Time) → map (value x) (trees_at store.new.nodes places.items) ≡ map (value x) (trees_at store.old.nodes roots.now)) }
    ensures reduced { IfOk result (λ places. AllByRecursion IsReduced (trees_at store.new.nodes places.items)) }
    ensures fewer_joins { IfOk result (λ places. join_count (trees_at store.new.nodes places.items) ≤ join_count (trees_at store.old.nodes roots.now)) }
    ensures fewer_delays { IfOk result (λ places. delay_count (trees_at store.new.nodes places.items) ≤ delay_count (trees_at store.old.nodes roots.now)) }
    ensures unchanged { OnErr result (store.new.nodes ≡ store.old.nodes) }
{
    store.rules();
    let marks = reached(alloc, store, roots)?;
    store.reserve(store.len())?;
    let mut became = Vec::with_capacity(alloc, marks.len())?;
    let mut places = Vec::with_capacity(alloc, roots.len())?;
    let mut ends = Vec::with_capacity(alloc, 2 * marks.len())?;
    note_ends(store, &mut ends);
    simplify_marked(store, &marks, &mut ends, &mut became);
    note_places(&became, roots, &mut places);
    Ok(places)
}

/// Simplifies the marked places in order, and notes where each is then.
fn simplify_marked(store: &mut Store, marks: &[bool], ends: &mut Vec<Ends>, became: &mut Vec<Term>)
    requires nodes { IsNodes store.old.nodes }
    requires marked { AreMarked store.old.nodes marks.now }
    requires room { HasRoom store.old (length marks.now) }
    requires ends { AreEnds store.old.nodes ends.old.items }
    requires all { length ends.old.items ≡ length store.old.nodes }
    requires ends_capacity { length store.old.nodes + length marks.now ≤ vec_capacity ends.old }
    requires empty { became.old.items ≡ [] }
    requires capacity { length marks.now ≤ vec_capacity became.old }
    ensures nodes { IsNodes store.new.nodes }
    ensures grown { IsPrefix store.old.nodes store.new.nodes }
    ensures planted { store.new.nodes ≡ plant store.old.nodes (map simplified (trees_where store.old.nodes (is_marked marks.now) (length marks.now))) }
    ensures simplified { AreSimplified store.new.nodes marks.now (length marks.now) became.new.items }
    ensures room { TakesRoom store.old store.new (length marks.now) }
{
    for place in 0..marks.len() {
        let to = simplify_place(store, marks, ends, became, place as u32);
        became.push_reserved(to);
    }
}

/// Simplifies the term of a place where it is marked, and answers where it is then. For another place
/// the answer is a filler.
fn simplify_place(
    store: &mut Store,
    marks: &[bool],
    ends: &mut Vec<Ends>,
    became: &[Term],
    place: u32,
) -> Term
    requires nodes { IsNodes store.old.nodes }
    requires within { place < length marks.now }
    requires marked { AreMarked store.old.nodes marks.now }
    requires before { AreSimplified store.old.nodes marks.now place became.now }
    requires room { HasRoom store.old 1 }
    requires ends { AreEnds store.old.nodes ends.old.items }
    requires all { length ends.old.items ≡ length store.old.nodes }
    requires capacity { length store.old.nodes + 1 ≤ vec_capacity ends.old }
    ensures nodes { IsNodes store.new.nodes }
    ensures grown { IsPrefix store.old.nodes store.new.nodes }
    ensures planted { is_marked marks.now place ≡ true → store.new.nodes ≡ plant_one store.old.nodes (simplified (tree store.old.nodes place)) }
    ensures passed_over { is_marked marks.now place ≡ false → store.new.nodes ≡ store.old.nodes }
    ensures after { AreSimplified store.new.nodes marks.now (place + 1) (became.now ++ result ∷ []) }
    ensures room { TakesRoom store.old store.new 1 }
    ensures ends { AreEnds store.new.nodes ends.new.items }
    ensures all { length ends.new.items ≡ length store.new.nodes }
    ensures capacity { vec_capacity ends.new ≡ vec_capacity ends.old }
{
    if !marks[place as usize] {
        return Term(0);
    }
    let node = store.node(Term(place));
    simplify_node(store, ends, became, node)
}

/// Plants what the term of a node is simplified, and answers its place. The operands are simplified.
fn simplify_node(store: &mut Store, ends: &mut Vec<Ends>, became: &[Term], node: Node) -> Term
    requires nodes { IsNodes store.old.nodes }
    requires over { IsNodeOver (length became.now) node }
    requires operands { HasSimplified store.old.nodes became.now node }
    requires short { span (tree_by_places store.old.nodes node) ≤ 1000000 }
    requires room { HasRoom store.old 1 }
    requires ends { AreEnds store.old.nodes ends.old.items }
    requires all { length ends.old.items ≡ length store.old.nodes }
    requires capacity { length store.old.nodes + 1 ≤ vec_capacity ends.old }
    ensures planted { IsPlanted store.old.nodes store.new.nodes (simplified (tree_by_places store.old.nodes node)) result }
    ensures room { TakesRoom store.old store.new 1 }
    ensures ends { AreEnds store.new.nodes ends.new.items }
    ensures all { length ends.new.items ≡ length store.new.nodes }
    ensures capacity { vec_capacity ends.new ≡ vec_capacity ends.old }
{
    let last = settle(store, ends, over_simplified(became, node));
    let to = store.put(last);
    note_ends(store, ends);
    to
}

/// The node over the simplified terms of its operands.
fn over_simplified(became: &[Term], node: Node) -> Node
    requires over { IsNodeOver (length became.now) node }
    ensures node { result ≡ moved_node became.now node }
{
    match node {
        Node::Input(i) => Node::Input(i),
        Node::Never => Node::Never,
        Node::Min(a, b) => Node::Min(became[a.0 as usize], became[b.0 as usize]),
        Node::Max(a, b) => Node::Max(became[a.0 as usize], became[b.0 as usize]),
        Node::Lt(a, b) => Node::Lt(became[a.0 as usize], became[b.0 as usize]),
        Node::Inc(a, cycles) => Node::Inc(became[a.0 as usize], cycles),
    }
}

/// Notes the places of the simplified roots.
fn note_places(became: &[Term], roots: &[Term], places: &mut Vec<Term>)
    requires roots { All (λ t. t.0 < length became.now) roots.now }
    requires empty { places.old.items ≡ [] }
    requires capacity { length roots.now ≤ vec_capacity places.old }
    ensures places { places.new.items ≡ map (λ t. new_place became.now t.0) roots.now }
{
    for root in roots {
        places.push_reserved(became[root.0 as usize]);
    }
}
