//! The laws of lt.
ghost use Rattle.std.specs.Prelude.{◌≡◌, ◌<◌, length};
ghost use Rattle.term_store.specs.Tree.{Lt};
ghost use Rattle.term_store.specs.Nodes.{IsNodes};
ghost use Rattle.term_store.specs.Trees.{tree};
ghost use Rattle.simplify.specs.Simplified.{first_law, law5, law6, law7, law12, law15, law18, law19};
ghost use Rattle.simplify.specs.Past.{all_of_law13, all_of_law14, AreEnds};
ghost use Rattle.simplify.specs.Outcomes.{IsAnswer, lt_laws};

use crate::chains::{past_max, past_min};
use crate::ends::Ends;
use crate::outcome::Outcome;
use crate::places::{is_inc_of, is_lt_before, is_min_of, is_never, is_same};
use term_store::{Node, Store, Term};

/// `lt(a, a)` is never.
fn lt_of_same(store: &Store, a: Term, b: Term) -> Option<Outcome>
    requires nodes { IsNodes store.now.nodes }
    requires a { a.0 < length store.now.nodes }
    requires b { b.0 < length store.now.nodes }
    ensures { IsAnswer store.now.nodes (law5 (Lt (tree store.now.nodes a.0) (tree store.now.nodes b.0))) result }
{
    if is_same(store, a, b) {
        Some(Outcome::Over(Node::Never))
    } else {
        None
    }
}

/// `lt(never, b)` is never.
fn lt_of_never(store: &Store, a: Term, b: Term) -> Option<Outcome>
    requires nodes { IsNodes store.now.nodes }
    requires a { a.0 < length store.now.nodes }
    requires b { b.0 < length store.now.nodes }
    ensures { IsAnswer store.now.nodes (law6 (Lt (tree store.now.nodes a.0) (tree store.now.nodes b.0))) result }
{
    if is_never(store, a) {
        Some(Outcome::Held(a))
    } else {
        None
    }
}

/// `lt(a, never)` is a.
fn lt_before_never(store: &Store, a: Term, b: Term) -> Option<Outcome>
    requires nodes { IsNodes store.now.nodes }
    requires a { a.0 < length store.now.nodes }
    requires b { b.0 < length store.now.nodes }
    ensures { IsAnswer store.now.nodes (law7 (Lt (tree store.now.nodes a.0) (tree store.now.nodes b.0))) result }
{
    if is_never(store, b) {
        Some(Outcome::Held(a))
    } else {
        None
    }
}

/// `lt(a, min(a, b))` is never.
fn lt_before_min(store: &Store, a: Term, b: Term) -> Option<Outcome>
    requires nodes { IsNodes store.now.nodes }
    requires a { a.0 < length store.now.nodes }
    requires b { b.0 < length store.now.nodes }
    ensures { IsAnswer store.now.nodes (law12 (Lt (tree store.now.nodes a.0) (tree store.now.nodes b.0))) result }
{
    if is_min_of(store, a, b) {
        Some(Outcome::Over(Node::Never))
    } else {
        None
    }
}

/// `lt(a, max(a, b))` is `lt(a, b)`, as often as it fits.
fn lt_before_max(store: &Store, ends: &[Ends], a: Term, b: Term) -> Option<Outcome>
    requires nodes { IsNodes store.now.nodes }
    requires ends { AreEnds store.now.nodes ends.now }
    requires a { a.0 < length store.now.nodes }
    requires b { b.0 < length ends.now }
    ensures { IsAnswer store.now.nodes (all_of_law13 (Lt (tree store.now.nodes a.0) (tree store.now.nodes b.0))) result }
{
    let past = past_max(store, ends, a, b);
    if is_same(store, past, b) {
        None
    } else {
        Some(Outcome::Over(Node::Lt(a, past)))
    }
}

/// `lt(min(a, b), a)` is `lt(b, a)`, as often as it fits.
fn lt_of_min(store: &Store, ends: &[Ends], a: Term, b: Term) -> Option<Outcome>
    requires nodes { IsNodes store.now.nodes }
    requires ends { AreEnds store.now.nodes ends.now }
    requires a { a.0 < length ends.now }
    requires b { b.0 < length store.now.nodes }
    ensures { IsAnswer store.now.nodes (all_of_law14 (Lt (tree store.now.nodes a.0) (tree store.now.nodes b.0))) result }
{
    let past = past_min(store, ends, b, a);
    if is_same(store, past, a) {
        None
    } else {
        Some(Outcome::Over(Node::Lt(past, b)))
    }
}

/// `lt(lt(a, b), b)` is `lt(a, b)`.
fn lt_of_lt(store: &Store, a: Term, b: Term) -> Option<Outcome>
    requires nodes { IsNodes store.now.nodes }
    requires a { a.0 < length store.now.nodes }
    requires b { b.0 < length store.now.nodes }
    ensures { IsAnswer store.now.nodes (law15 (Lt (tree store.now.nodes a.0) (tree store.now.nodes b.0))) result }
{
    if is_lt_before(store, b, a) {
        Some(Outcome::Held(a))
    } else {
        None
    }
}

/// `lt(a, inc(a, c))` is a.
fn lt_before_inc(store: &Store, a: Term, b: Term) -> Option<Outcome>
    requires nodes { IsNodes store.now.nodes }
    requires a { a.0 < length store.now.nodes }
    requires b { b.0 < length store.now.nodes }
    ensures { IsAnswer store.now.nodes (law18 (Lt (tree store.now.nodes a.0) (tree store.now.nodes b.0))) result }
{
    if is_inc_of(store, a, b) {
        Some(Outcome::Held(a))
    } else {
        None
    }
}

/// `lt(inc(a, c), a)` is never.
fn lt_of_inc(store: &Store, a: Term, b: Term) -> Option<Outcome>
    requires nodes { IsNodes store.now.nodes }
    requires a { a.0 < length store.now.nodes }
    requires b { b.0 < length store.now.nodes }
    ensures { IsAnswer store.now.nodes (law19 (Lt (tree store.now.nodes a.0) (tree store.now.nodes b.0))) result }
{
    if is_inc_of(store, b, a) {
        Some(Outcome::Over(Node::Never))
    } else {
        None
    }
}

/// The first of the laws that fits `lt(a, b)`. It goes past a whole chain of max or min at once.
pub fn lt_law(store: &Store, ends: &[Ends], a: Term, b: Term) -> Option<Outcome>
    requires nodes { IsNodes store.now.nodes }
    requires ends { AreEnds store.now.nodes ends.now }
    requires all { length ends.now ≡ length store.now.nodes }
    requires a { a.0 < length store.now.nodes }
    requires b { b.0 < length store.now.nodes }
    ensures { IsAnswer store.now.nodes (first_law lt_laws (Lt (tree store.now.nodes a.0) (tree store.now.nodes b.0))) result }
{
    if let Some(outcome) = lt_of_same(store, a, b) {
        return Some(outcome);
    }
    if let Some(outcome) = lt_of_never(store, a, b) {
        return Some(outcome);
    }
    if let Some(outcome) = lt_before_never(store, a, b) {
        return Some(outcome);
    }
    if let Some(outcome) = lt_before_min(store, a, b) {
        return Some(outcome);
    }
    if let Some(outcome) = lt_before_max(store, ends, a, b) {
        return Some(outcome);
    }
    if let Some(outcome) = lt_of_min(store, ends, a, b) {
        return Some(outcome);
    }
    if let Some(outcome) = lt_of_lt(store, a, b) {
        return Some(outcome);
    }
    if let Some(outcome) = lt_before_inc(store, a, b) {
        return Some(outcome);
    }
    lt_of_inc(store, a, b)
}
