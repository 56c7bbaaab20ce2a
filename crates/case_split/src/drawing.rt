//! Times at which two outputs differ, found by drawing lists of times. Most differences show at once, in which case no cases are
//! needed.
ghost use Rattle.std.specs.Prelude.{◌≡◌, ◌≤◌, ◌<◌, true, length, IfOk, IfSome};
ghost use Rattle.std.specs.List.{All};
ghost use Rattle.spike_eval.specs.Premises.{NameInputs, MeetsPremise, MeetsPremises};
ghost use Rattle.term_store.specs.Tree.{value};
ghost use Rattle.term_store.specs.Trees.{tree};
ghost use Rattle.case_split.specs.Verdicts.{IsSmallNumber, IsTermDifference};

use crate::tying::tie_some;
use net_model::Assume;
use rand_core::utils::NextWord;
use rand_pcg::Pcg32;
use rl_time::{NoMemory, Time};
use std::alloc::Global;
use term_store::{Evaluator, Store, Term};

/// How many lists of times are drawn below each limit.
const LISTS: u32 = 16;

/// The limits are 1, 2, 4, 8 and so on up to this one: first all times are equal, then at most one apart.
const LAST_LIMIT: u32 = 1_048_576;

/// How many places are valued in lists with ties, at most: large terms get fewer lists.
const TIED_PLACES: u32 = 4_194_304;

/// The least and the most lists with ties.
const LEAST_TIED: u32 = 64;

const MOST_TIED: u32 = 8192;

/// Two terms that are valued at each list.
#[derive(Drop)]
struct TwoTerms {
    evaluator: Evaluator,
    one: Term,
    other: Term,
}

/// A time for each of so many inputs, which meets the premises, and at which two terms of a store differ: the first of 336 lists
/// that are drawn, and of 64 to 8,192 in which operands tie, always the same ones, or `None` where none of them does. None are
/// drawn where the two places are one.
pub(crate) fn early_difference(
    alloc: Global,
    store: &Store,
    one: Term,
    other: Term,
    inputs: u32,
    premises: &[Assume],
) -> Result<Option<Vec<Time>>, NoMemory>
    requires one { one.0 < length store.now.nodes }
    requires other { other.0 < length store.now.nodes }
    requires named { NameInputs inputs premises.now }
    requires small_premises { All (λ p. p.by ≤ 1000000) premises.now }
    ensures { IfOk result (λ found. IfSome found (λ times.
        IsTermDifference inputs premises.now (tree store.now.nodes one.0) (tree store.now.nodes other.0) times.items)) }
{
    if one == other {
        return Ok(None);
    }
    let evaluator = Evaluator::new(alloc, store)?;
    let mut pair = TwoTerms {
        evaluator,
        one,
        other,
    };
    let mut draws = Pcg32::new(42, 54);
    let found = drawn_difference(alloc, &mut pair, inputs, premises, &mut draws)?;
    if found.is_some() {
        return Ok(found);
    }
    tied_difference(alloc, &mut pair, store, inputs, premises, &mut draws)
}

/// The same among the lists that are drawn without regard to the terms.
fn drawn_difference(
    alloc: Global,
    pair: &mut TwoTerms,
    inputs: u32,
    premises: &[Assume],
    draws: &mut Pcg32,
) -> Result<Option<Vec<Time>>, NoMemory>
    requires one { pair.old.one.0 < length pair.old.evaluator }
    requires other { pair.old.other.0 < length pair.old.evaluator }
    requires named { NameInputs inputs premises.now }
    requires small_premises { All (λ p. p.by ≤ 1000000) premises.now }
    ensures found { IfOk result (λ found. IfSome found (λ times.
        IsTermDifference inputs premises.now (tree pair.old.evaluator pair.old.one.0) (tree pair.old.evaluator pair.old.other.0) times.items)) }
    ensures pair { pair.new ≡ pair.old }
{
    let mut limit = 1;
    while limit <= LAST_LIMIT {
        let found = difference_below(alloc, pair, inputs, premises, draws, limit)?;
        if found.is_some() {
            return Ok(found);
        }
        limit *= 2;
    }
    Ok(None)
}

/// The same among lists in which operands of the terms tie. The store holds the terms.
fn tied_difference(
    alloc: Global,
    pair: &mut TwoTerms,
    store: &Store,
    inputs: u32,
    premises: &[Assume],
    draws: &mut Pcg32,
) -> Result<Option<Vec<Time>>, NoMemory>
    requires some { 0 < length store.now.nodes }
    requires one { pair.old.one.0 < length pair.old.evaluator }
    requires other { pair.old.other.0 < length pair.old.evaluator }
    requires named { NameInputs inputs premises.now }
    requires small_premises { All (λ p. p.by ≤ 1000000) premises.now }
    ensures { IfOk result (λ found. IfSome found (λ times.
        IsTermDifference inputs premises.now (tree pair.old.evaluator pair.old.one.0) (tree pair.old.evaluator pair.old.other.0) times.items)) }
{
    let lists = (TIED_PLACES / store.len()).max(LEAST_TIED).min(MOST_TIED);
    let mut limit = 1;
    for _list in 0..lists {
        let mut times = draw_times(alloc, draws, inputs as usize, limit)?;
        tie_some(draws, store, &mut times);
        if meet(&times, premises) && differ(pair, &times) {
            return Ok(Some(times));
        }
        limit = if limit <= LAST_LIMIT / 2 {
            limit * 2
        } else {
            1
        };
    }
    Ok(None)
}

/// The same among lists of times below a limit.
fn difference_below(
    alloc: Global,
    pair: &mut TwoTerms,
    inputs: u32,
    premises: &[Assume],
    draws: &mut Pcg32,
    limit: u32,
) -> Result<Option<Vec<Time>>, NoMemory>
    requires one { pair.old.one.0 < length pair.old.evaluator }
    requires other { pair.old.other.0 < length pair.old.evaluator }
    requires named { NameInputs inputs premises.now }
    requires small_premises { All (λ p. p.by ≤ 1000000) premises.now }
    requires some { 1 ≤ limit }
    requires small { limit ≤ 1048576 }
    ensures found { IfOk result (λ found. IfSome found (λ times.
        IsTermDifference inputs premises.now (tree pair.old.evaluator pair.old.one.0) (tree pair.old.evaluator pair.old.other.0) times.items)) }
    ensures pair { pair.new ≡ pair.old }
{
    for _list in 0..LISTS {
        let times = draw_times(alloc, draws, inputs as usize, limit)?;
        if meet(&times, premises) && differ(pair, &times) {
            return Ok(Some(times));
        }
    }
    Ok(None)
}

/// Draws so many times below a limit.
fn draw_times(
    alloc: Global,
    draws: &mut Pcg32,
    count: usize,
    limit: u32,
) -> Result<Vec<Time>, NoMemory>
    requires some { 1 ≤ limit }
    requires small { limit ≤ 1048576 }
    ensures long { IfOk result (λ times. length times.items ≡ count) }
    ensures small { IfOk result (λ times. All IsSmallNumber times.items) }
{
    let mut times = Vec::with_capacity(alloc, count)?;
    for _input in 0..count {
        times.push(Time::At(u64::from(draws.next_word() % limit)))?;
    }
    Ok(times)
}

/// Whether the times meet the premises.
fn meet(times: &[Time], premises: &[Assume]) -> bool
    requires named { NameInputs (length times.now) premises.now }
    requires small_premises { All (λ p. p.by ≤ 1000000) premises.now }
    requires small { All IsSmallNumber times.now }
    ensures { result ≡ true → MeetsPremises times.now premises.now }
{
    match premises {
        [] => true,
        [premise, rest @ ..] => meets(times, *premise) && meet(times, rest),
    }
}

/// Whether the times meet the premise.
fn meets(times: &[Time], premise: Assume) -> bool
    requires from { premise.from < length times.now }
    requires to { premise.to < length times.now }
    requires by { premise.by ≤ 1000000 }
    requires small { All IsSmallNumber times.now }
    ensures { result ≡ true → MeetsPremise times.now premise }
{
    match (times[premise.from as usize], times[premise.to as usize]) {
        (Time::At(from), Time::At(to)) => from <= to + u64::from(premise.by),
        _ => false,
    }
}

/// Whether the two terms differ at the times.
fn differ(pair: &mut TwoTerms, times: &[Time]) -> bool
    requires one { pair.old.one.0 < length pair.old.evaluator }
    requires other { pair.old.other.0 < length pair.old.evaluator }
    requires small { All IsSmallNumber times.now }
    ensures differ { result ≡ true → value times.now (tree pair.old.evaluator pair.old.one.0) ≡ value times.now (tree pair.old.evaluator pair.old.other.0) → ⊥ }
    ensures pair { pair.new ≡ pair.old }
{
    let one = pair.evaluator.time(pair.one, times);
    let other = pair.evaluator.time(pair.other, times);
    one != other
}
