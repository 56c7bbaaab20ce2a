//! The laws of min.
ghost use Rattle.std.specs.Prelude.{◌≡◌, ◌<◌, length};
ghost use Rattle.term_store.specs.Tree.{Min};
ghost use Rattle.term_store.specs.Nodes.{IsNodes};
ghost use Rattle.term_store.specs.Trees.{tree};
ghost use Rattle.simplify.specs.Simplified.{first_law, law1, law3, law10, law16, law20};
ghost use Rattle.simplify.specs.Outcomes.{IsAnswer, min_laws};

use crate::outcome::Outcome;
use crate::places::{is_lt_of, is_max_of, is_never, is_same, lt_operands};
use term_store::{Node, Store, Term};

/// `min(a, a)` is a.
fn min_of_same(store: &Store, a: Term, b: Term) -> Option<Outcome>
    requires nodes { IsNodes store.now.nodes }
    requires a { a.0 < length store.now.nodes }
    requires b { b.0 < length store.now.nodes }
    ensures { IsAnswer store.now.nodes (law1 (Min (tree store.now.nodes a.0) (tree store.now.nodes b.0))) result }
{
    if is_same(store, a, b) {
        Some(Outcome::Held(a))
    } else {
        None
    }
}

/// `min(a, never)` is a.
fn min_of_never(store: &Store, a: Term, b: Term) -> Option<Outcome>
    requires nodes { IsNodes store.now.nodes }
    requires a { a.0 < length store.now.nodes }
    requires b { b.0 < length store.now.nodes }
    ensures { IsAnswer store.now.nodes (law3 (Min (tree store.now.nodes a.0) (tree store.now.nodes b.0))) result }
{
    if is_never(store, b) {
        Some(Outcome::Held(a))
    } else if is_never(store, a) {
        Some(Outcome::Held(b))
    } else {
        None
    }
}

/// `min(a, max(a, b))` is a.
fn min_of_max(store: &Store, a: Term, b: Term) -> Option<Outcome>
    requires nodes { IsNodes store.now.nodes }
    requires a { a.0 < length store.now.nodes }
    requires b { b.0 < length store.now.nodes }
    ensures { IsAnswer store.now.nodes (law10 (Min (tree store.now.nodes a.0) (tree store.now.nodes b.0))) result }
{
    if is_max_of(store, a, b) {
        Some(Outcome::Held(a))
    } else if is_max_of(store, b, a) {
        Some(Outcome::Held(b))
    } else {
        None
    }
}

/// `min(a, lt(a, b))` is a.
fn min_of_lt(store: &Store, a: Term, b: Term) -> Option<Outcome>
    requires nodes { IsNodes store.now.nodes }
    requires a { a.0 < length store.now.nodes }
    requires b { b.0 < length store.now.nodes }
    ensures { IsAnswer store.now.nodes (law16 (Min (tree store.now.nodes a.0) (tree store.now.nodes b.0))) result }
{
    if is_lt_of(store, a, b) {
        Some(Outcome::Held(a))
    } else if is_lt_of(store, b, a) {
        Some(Outcome::Held(b))
    } else {
        None
    }
}

/// `min(lt(b, lt(b, a)), lt(a, lt(a, b)))` is `max(a, b)`.
fn min_of_races(store: &Store, a: Term, b: Term) -> Option<Outcome>
    requires nodes { IsNodes store.now.nodes }
    requires a { a.0 < length store.now.nodes }
    requires b { b.0 < length store.now.nodes }
    ensures { IsAnswer store.now.nodes (law20 (Min (tree store.now.nodes a.0) (tree store.now.nodes b.0))) result }
{
    let (late, in_first) = lt_operands(store, a)?;
    let (early, in_second) = lt_operands(store, b)?;
    let (c, first) = lt_operands(store, in_first)?;
    let (e, last) = lt_operands(store, in_second)?;
    let agree = is_same(store, late, c) && is_same(store, late, last);
    let cross = is_same(store, first, early) && is_same(store, first, e);
    if agree && cross {
        Some(Outcome::Over(Node::Max(first, late)))
    } else {
        None
    }
}

/// The first of the laws that fits `min(a, b)`.
pub fn min_law(store: &Store, a: Term, b: Term) -> Option<Outcome>
    requires nodes { IsNodes store.now.nodes }
    requires a { a.0 < length store.now.nodes }
    requires b { b.0 < length store.now.nodes }
    ensures { IsAnswer store.now.nodes (first_law min_laws (Min (tree store.now.nodes a.0) (tree store.now.nodes b.0))) result }
{
    if let Some(outcome) = min_of_same(store, a, b) {
        return Some(outcome);
    }
    if let Some(outcome) = min_of_never(store, a, b) {
        return Some(outcome);
    }
    if let Some(outcome) = min_of_max(store, a, b) {
        return Some(outcome);
    }
    if let Some(outcome) = min_of_lt(store, a, b) {
        return Some(outcome);
    }
    min_of_races(store, a, b)
}
