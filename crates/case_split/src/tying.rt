//! Lists of times at which two operands of an operator rise together, or one cycle apart. Terms that differ only there are seldom
//! told apart by times that are drawn without regard to the delays.
ghost use Rattle.std.specs.Prelude.{◌≡◌, ◌<◌, ℕ, length, IfSome};
ghost use Rattle.std.specs.List.{All};
ghost use Rattle.term_store.specs.Nodes.{IsNodeOver};
ghost use Rattle.case_split.specs.Verdicts.{IsSmallNumber};

use rand_core::utils::NextWord;
use rand_pcg::Pcg32;
use rl_time::Time;
use term_store::{Node, Store, Term};

/// The greatest time of a list, in cycles.
const LAST_TIME: u64 = 63_000_063;

/// At most so many ties are made in a list.
const MOST_TIES: u32 = 12;

/// A way from a term down to an input: the input's place, and the cycles that are added on the way.
#[derive(Clone, Copy)]
struct Way {
    input: u32,
    delay: u64,
}

/// Changes some of the times of a list so that the operands of some operators tie or are one cycle apart.
pub(crate) fn tie_some(draws: &mut Pcg32, store: &Store, times: &mut [Time])
    requires some { 0 < length store.now.nodes }
    requires small { All IsSmallNumber times.old }
    ensures small { All IsSmallNumber times.new }
    ensures long { length times.new ≡ length times.old }
{
    for _tie in 0..1 + draws.next_word() % MOST_TIES {
        tie_one(draws, store, times);
    }
}

/// The same for one place, which is drawn.
fn tie_one(draws: &mut Pcg32, store: &Store, times: &mut [Time])
    requires some { 0 < length store.now.nodes }
    requires small { All IsSmallNumber times.old }
    ensures small { All IsSmallNumber times.new }
    ensures long { length times.new ≡ length times.old }
{
    let place = Term(draws.next_word() % store.len());
    tie_at(draws, store, place, times);
}

/// The same for this place. Nothing changes unless there is an operator of two operands.
fn tie_at(draws: &mut Pcg32, store: &Store, place: Term, times: &mut [Time])
    requires within { place.0 < length store.now.nodes }
    requires small { All IsSmallNumber times.old }
    ensures small { All IsSmallNumber times.new }
    ensures long { length times.new ≡ length times.old }
{
    store.rules();
    let Some((first, second)) = operands(store.node(place)) else {
        return;
    };
    let Some(one) = way_down(draws, store, first) else {
        return;
    };
    let Some(other) = way_down(draws, store, second) else {
        return;
    };
    let apart = u64::from(draws.next_word() % 3);
    if draws.next_word() % 2 == 0 {
        tie(times, one, other, apart);
    } else {
        tie(times, other, one, apart);
    }
}

/// The operands that an operator compares.
fn operands(node: Node) -> Option<(Term, Term)>
    ensures { (m : ℕ) → IsNodeOver m node → IfSome result (λ p. (p.0.0 < m) × (p.1.0 < m)) }
{
    match node {
        Node::Min(a, b) => Some((a, b)),
        Node::Max(a, b) => Some((a, b)),
        Node::Lt(a, b) => Some((a, b)),
        _ => None,
    }
}

/// A way down from a term, which is drawn, or `None` if it ends at never.
fn way_down(draws: &mut Pcg32, store: &Store, term: Term) -> Option<Way>
    requires term { term.0 < length store.now.nodes }
{
    store.rules();
    let mut at = term;
    let mut delay: u64 = 0;
    while let Some((next, by)) = step_down(draws, store.node(at)) {
        at = next;
        delay = delay.saturating_add(u64::from(by));
    }
    match store.node(at) {
        Node::Input(input) => Some(Way { input, delay }),
        _ => None,
    }
}

/// One step down: an operand, which is drawn for min and max, and the cycles that are added to it.
fn step_down(draws: &mut Pcg32, node: Node) -> Option<(Term, u32)>
    ensures { (m : ℕ) → IsNodeOver m node → IfSome result (λ p. p.0.0 < m) }
{
    let is_first = draws.next_word() % 2 == 0;
    match node {
        Node::Min(a, b) => Some((if is_first { a } else { b }, 0)),
        Node::Max(a, b) => Some((if is_first { a } else { b }, 0)),
        Node::Lt(a, _) => Some((a, 0)),
        Node::Inc(a, by) => Some((a, by)),
        _ => None,
    }
}

/// Moves the second input, or the first where the second would be before cycle 0: at the ends of the two ways the second is then
/// one cycle before the first, with it, or one cycle after it, if `apart` is 0, 1 or 2.
fn tie(times: &mut [Time], one: Way, other: Way, apart: u64)
    requires small { All IsSmallNumber times.old }
    ensures small { All IsSmallNumber times.new }
    ensures long { length times.new ≡ length times.old }
{
    let ahead = one.delay.saturating_add(apart);
    let back = other.delay.saturating_add(1);
    let end = number_at(times, one.input).saturating_add(ahead);
    if end >= back {
        put_number(times, other.input, end - back);
    } else {
        let end = number_at(times, other.input).saturating_add(back);
        put_number(times, one.input, end.saturating_sub(ahead));
    }
}

/// The number of an input, and 0 past the last.
fn number_at(times: &[Time], input: u32) -> u64 {
    match times.get(input as usize) {
        Some(Time::At(number)) => *number,
        _ => 0,
    }
}

/// Gives an input this number, or the greatest that a list may have.
fn put_number(times: &mut [Time], input: u32, number: u64)
    requires small { All IsSmallNumber times.old }
    ensures small { All IsSmallNumber times.new }
    ensures long { length times.new ≡ length times.old }
{
    if (input as usize) < times.len() {
        times[input as usize] = Time::At(number.min(LAST_TIME));
    }
}
