//! What is at the places of a store.
ghost use Rattle.std.specs.Prelude.{◌≡◌, ◌<◌, ◌≤◌, length, MatchOption};
ghost use Rattle.term_store.specs.Tree.{Max, Min, Lt, Inc};
ghost use Rattle.term_store.specs.Subterms.{same_tree};
ghost use Rattle.term_store.specs.Nodes.{IsNodes};
ghost use Rattle.term_store.specs.Trees.{tree};
ghost use Rattle.simplify.specs.Simplified as simplified;
ghost use Rattle.simplify.specs.Outcomes.{max_names, min_names, lt_names, before_names, inc_names, IsNoMax, IsNoMin, IsNoLt, IsNoInc};

use term_store::{Node, Store, Term};

/// Whether two places have the same term.
pub fn is_same(store: &Store, a: Term, b: Term) -> bool
    requires nodes { IsNodes store.now.nodes }
    requires a { a.0 < length store.now.nodes }
    requires b { b.0 < length store.now.nodes }
    ensures { result ≡ same_tree (tree store.now.nodes a.0) (tree store.now.nodes b.0) }
{
    a.0 == b.0
}

/// Whether never is at the place.
pub fn is_never(store: &Store, a: Term) -> bool
    requires nodes { IsNodes store.now.nodes }
    requires a { a.0 < length store.now.nodes }
    ensures { result ≡ simplified.is_never (tree store.now.nodes a.0) }
{
    matches!(store.node(a), Node::Never)
}

/// Whether the node is a max of the place and another.
fn names_max(a: Term, node: Node) -> bool
    ensures { result ≡ max_names a.0 node }
{
    match node {
        Node::Max(x, y) => a.0 == x.0 || a.0 == y.0,
        _ => false,
    }
}

/// Whether the node is a min of the place and another.
fn names_min(a: Term, node: Node) -> bool
    ensures { result ≡ min_names a.0 node }
{
    match node {
        Node::Min(x, y) => a.0 == x.0 || a.0 == y.0,
        _ => false,
    }
}

/// Whether the node is an lt of the place before another.
fn names_lt(a: Term, node: Node) -> bool
    ensures { result ≡ lt_names a.0 node }
{
    match node {
        Node::Lt(x, _) => a.0 == x.0,
        _ => false,
    }
}

/// Whether the node is an lt of another before the place.
fn names_before(a: Term, node: Node) -> bool
    ensures { result ≡ before_names a.0 node }
{
    match node {
        Node::Lt(_, y) => a.0 == y.0,
        _ => false,
    }
}

/// Whether the node is an inc of the place.
fn names_inc(a: Term, node: Node) -> bool
    ensures { result ≡ inc_names a.0 node }
{
    match node {
        Node::Inc(x, _) => a.0 == x.0,
        _ => false,
    }
}

/// Whether b is a max of a and another.
pub fn is_max_of(store: &Store, a: Term, b: Term) -> bool
    requires nodes { IsNodes store.now.nodes }
    requires a { a.0 < length store.now.nodes }
    requires b { b.0 < length store.now.nodes }
    ensures { result ≡ simplified.is_max_of (tree store.now.nodes a.0) (tree store.now.nodes b.0) }
{
    names_max(a, store.node(b))
}

/// Whether b is a min of a and another.
pub fn is_min_of(store: &Store, a: Term, b: Term) -> bool
    requires nodes { IsNodes store.now.nodes }
    requires a { a.0 < length store.now.nodes }
    requires b { b.0 < length store.now.nodes }
    ensures { result ≡ simplified.is_min_of (tree store.now.nodes a.0) (tree store.now.nodes b.0) }
{
    names_min(a, store.node(b))
}

/// Whether b is an lt of a before another.
pub fn is_lt_of(store: &Store, a: Term, b: Term) -> bool
    requires nodes { IsNodes store.now.nodes }
    requires a { a.0 < length store.now.nodes }
    requires b { b.0 < length store.now.nodes }
    ensures { result ≡ simplified.is_lt_of (tree store.now.nodes a.0) (tree store.now.nodes b.0) }
{
    names_lt(a, store.node(b))
}

/// Whether b is an lt of another before a.
pub fn is_lt_before(store: &Store, a: Term, b: Term) -> bool
    requires nodes { IsNodes store.now.nodes }
    requires a { a.0 < length store.now.nodes }
    requires b { b.0 < length store.now.nodes }
    ensures { result ≡ simplified.is_lt_before (tree store.now.nodes a.0) (tree store.now.nodes b.0) }
{
    names_before(a, store.node(b))
}

/// Whether b is an inc of a.
pub fn is_inc_of(store: &Store, a: Term, b: Term) -> bool
    requires nodes { IsNodes store.now.nodes }
    requires a { a.0 < length store.now.nodes }
    requires b { b.0 < length store.now.nodes }
    ensures { result ≡ simplified.is_inc_of (tree store.now.nodes a.0) (tree store.now.nodes b.0) }
{
    names_inc(a, store.node(b))
}

/// The operands, if a max is at the place.
pub fn max_operands(store: &Store, b: Term) -> Option<(Term, Term)>
    requires nodes { IsNodes store.now.nodes }
    requires b { b.0 < length store.now.nodes }
    ensures { MatchOption result (IsNoMax (tree store.now.nodes b.0)) (λ p. (p.0.0 < length store.now.nodes) × (p.1.0 < length store.now.nodes) × (tree store.now.nodes b.0 ≡ Max (tree store.now.nodes p.0.0) (tree store.now.nodes p.1.0))) }
{
    match store.node(b) {
        Node::Max(x, y) => Some((x, y)),
        _ => None,
    }
}

/// The operands, if a min is at the place.
pub fn min_operands(store: &Store, b: Term) -> Option<(Term, Term)>
    requires nodes { IsNodes store.now.nodes }
    requires b { b.0 < length store.now.nodes }
    ensures { MatchOption result (IsNoMin (tree store.now.nodes b.0)) (λ p. (p.0.0 < length store.now.nodes) × (p.1.0 < length store.now.nodes) × (tree store.now.nodes b.0 ≡ Min (tree store.now.nodes p.0.0) (tree store.now.nodes p.1.0))) }
{
    match store.node(b) {
        Node::Min(x, y) => Some((x, y)),
        _ => None,
    }
}

/// The operands, if an lt is at the place.
pub fn lt_operands(store: &Store, b: Term) -> Option<(Term, Term)>
    requires nodes { IsNodes store.now.nodes }
    requires b { b.0 < length store.now.nodes }
    ensures { MatchOption result (IsNoLt (tree store.now.nodes b.0)) (λ p. (p.0.0 < length store.now.nodes) × (p.1.0 < length store.now.nodes) × (tree store.now.nodes b.0 ≡ Lt (tree store.now.nodes p.0.0) (tree store.now.nodes p.1.0))) }
{
    match store.node(b) {
        Node::Lt(x, y) => Some((x, y)),
        _ => None,
    }
}

/// The operand and the cycles, if an inc is at the place.
pub fn inc_operand(store: &Store, b: Term) -> Option<(Term, u32)>
    requires nodes { IsNodes store.now.nodes }
    requires b { b.0 < length store.now.nodes }
    ensures { MatchOption result (IsNoInc (tree store.now.nodes b.0)) (λ p. (p.0.0 < length store.now.nodes) × (1 ≤ p.1) × (tree store.now.nodes b.0 ≡ Inc (tree store.now.nodes p.0.0) p.1)) }
{
    match store.node(b) {
        Node::Inc(x, cycles) => Some((x, cycles)),
        _ => None,
    }
}
