//! The laws of max.
ghost use Rattle.std.specs.Prelude.{◌≡◌, ◌<◌, length};
ghost use Rattle.term_store.specs.Tree.{Max};
ghost use Rattle.term_store.specs.Nodes.{IsNodes};
ghost use Rattle.term_store.specs.Trees.{tree};
ghost use Rattle.simplify.specs.Simplified.{first_law, law2, law4, law11, law17};
ghost use Rattle.simplify.specs.Outcomes.{IsAnswer, max_laws};

use crate::outcome::Outcome;
use crate::places::{is_lt_of, is_min_of, is_never, is_same};
use term_store::{Store, Term};

/// `max(a, a)` is a.
fn max_of_same(store: &Store, a: Term, b: Term) -> Option<Outcome>
    requires nodes { IsNodes store.now.nodes }
    requires a { a.0 < length store.now.nodes }
    requires b { b.0 < length store.now.nodes }
    ensures { IsAnswer store.now.nodes (law2 (Max (tree store.now.nodes a.0) (tree store.now.nodes b.0))) result }
{
    if is_same(store, a, b) {
        Some(Outcome::Held(a))
    } else {
        None
    }
}

/// `max(a, never)` is never.
fn max_of_never(store: &Store, a: Term, b: Term) -> Option<Outcome>
    requires nodes { IsNodes store.now.nodes }
    requires a { a.0 < length store.now.nodes }
    requires b { b.0 < length store.now.nodes }
    ensures { IsAnswer store.now.nodes (law4 (Max (tree store.now.nodes a.0) (tree store.now.nodes b.0))) result }
{
    if is_never(store, b) {
        Some(Outcome::Held(b))
    } else if is_never(store, a) {
        Some(Outcome::Held(a))
    } else {
        None
    }
}

/// `max(a, min(a, b))` is a.
fn max_of_min(store: &Store, a: Term, b: Term) -> Option<Outcome>
    requires nodes { IsNodes store.now.nodes }
    requires a { a.0 < length store.now.nodes }
    requires b { b.0 < length store.now.nodes }
    ensures { IsAnswer store.now.nodes (law11 (Max (tree store.now.nodes a.0) (tree store.now.nodes b.0))) result }
{
    if is_min_of(store, a, b) {
        Some(Outcome::Held(a))
    } else if is_min_of(store, b, a) {
        Some(Outcome::Held(b))
    } else {
        None
    }
}

/// `max(a, lt(a, b))` is `lt(a, b)`.
fn max_of_lt(store: &Store, a: Term, b: Term) -> Option<Outcome>
    requires nodes { IsNodes store.now.nodes }
    requires a { a.0 < length store.now.nodes }
    requires b { b.0 < length store.now.nodes }
    ensures { IsAnswer store.now.nodes (law17 (Max (tree store.now.nodes a.0) (tree store.now.nodes b.0))) result }
{
    if is_lt_of(store, a, b) {
        Some(Outcome::Held(b))
    } else if is_lt_of(store, b, a) {
        Some(Outcome::Held(a))
    } else {
        None
    }
}

/// The first of the laws that fits `max(a, b)`.
pub fn max_law(store: &Store, a: Term, b: Term) -> Option<Outcome>
    requires nodes { IsNodes store.now.nodes }
    requires a { a.0 < length store.now.nodes }
    requires b { b.0 < length store.now.nodes }
    ensures { IsAnswer store.now.nodes (first_law max_laws (Max (tree store.now.nodes a.0) (tree store.now.nodes b.0))) result }
{
    if let Some(outcome) = max_of_same(store, a, b) {
        return Some(outcome);
    }
    if let Some(outcome) = max_of_never(store, a, b) {
        return Some(outcome);
    }
    if let Some(outcome) = max_of_min(store, a, b) {
        return Some(outcome);
    }
    max_of_lt(store, a, b)
}
