ghost use Rattle.std.specs.Prelude.{◌≡◌, ◌≤◌, ◌<◌, ◌+◌, ◌⊎◌, ◌≤ℤ◌, ◌-ℤ◌, ◌+ℤ◌, pos, ℕ, length, get_or, IfSome, IfNone, IfOk, List};
ghost use Rattle.refutation.specs.Path.{Meets, at};
ghost use Rattle.diff_bounds.specs.Search.{raised, of, AreMet, IsEnded, IsRunning, IsRelaxed, IsSized, IsBounds, IsListed, IsOpen, IsOpened, IsSearched};

use crate::ends::Ends;
use crate::search::{Question, Search};
use refutation::Assumption;
use rl_time::NoMemory;
use std::alloc::Global;

/// The place of the nearest input that is reached and not settled.
fn nearest(
    reached: &[u32],
    count: u32,
    distances: &[u64],
    turns: &[u32],
    n: u32,
    limit: u64,
) -> Option<u32>
    requires distances { length distances.now ≡ n }
    requires turns { length turns.now ≡ n }
    requires reached { length reached.now ≡ n }
    requires is_open { IsOpen n distances.now (of turns.now) limit reached.now count }
    ensures there { IfSome result (λ place. place < count) }
    ensures unset { IfSome result (λ place. n ≤ get_or turns.now (get_or reached.now place 0) 0) }
    ensures below { IfSome result (λ place. get_or distances.now (get_or reached.now place 0) 0 < limit) }
    ensures nearest { IfSome result (λ place. (l : ℕ) → l < n → (get_or turns.now l 0 < n) ⊎ (get_or distances.now (get_or reached.now place 0) 0 ≤ get_or distances.now l 0)) }
    ensures none { IfNone result ((l : ℕ) → l < n → (get_or turns.now l 0 < n) ⊎ (limit ≤ get_or distances.now l 0)) }
{
    let mut found = None;
    let mut best = limit;
    for place in 0..count {
        let k = reached[place as usize];
        let turn = turns[k as usize];
        let distance = distances[k as usize];
        if turn >= n {
            if distance < best {
                best = distance;
                found = Some(place);
            }
        }
    }
    found
}

/// The place of the input to be settled next, or `None` where what was asked for is found.
fn next(
    reached: &[u32],
    count: u32,
    distances: &[u64],
    turns: &[u32],
    n: u32,
    question: Question,
) -> Option<u32>
    requires distances { length distances.now ≡ n }
    requires turns { length turns.now ≡ n }
    requires reached { length reached.now ≡ n }
    requires asked { question.asked < n }
    requires is_open { IsOpen n distances.now (of turns.now) question.stop reached.now count }
    ensures there { IfSome result (λ place. place < count) }
    ensures unset { IfSome result (λ place. n ≤ get_or turns.now (get_or reached.now place 0) 0) }
    ensures below { IfSome result (λ place. get_or distances.now (get_or reached.now place 0) 0 < question.stop) }
    ensures nearest { IfSome result (λ place. (l : ℕ) → l < n → (get_or turns.now l 0 < n) ⊎ (get_or distances.now (get_or reached.now place 0) 0 ≤ get_or distances.now l 0)) }
    ensures ended { IfNone result (IsEnded n (of distances.now) (of turns.now) question.stop question.asked question.enough) }
{
    if distances[question.asked as usize] < question.enough {
        return None;
    }
    if turns[question.asked as usize] < n {
        return None;
    }
    nearest(reached, count, distances, turns, n, question.stop)
}

/// Writes a number at a place.
pub(crate) fn put_number(numbers: &mut [u32], k: u32, number: u32)
    requires there { k < length numbers.now }
    ensures here { get_or numbers.new k 0 ≡ number }
    ensures others { (l : ℕ) → (l ≡ k) ⊎ (get_or numbers.new l 0 ≡ get_or numbers.old l 0) }
{
    numbers[k as usize] = number;
}

/// Writes a number at a place.
fn put_distance(distances: &mut [u64], k: u32, distance: u64)
    requires there { k < length distances.now }
    ensures here { get_or distances.new k 0 ≡ distance }
    ensures others { (l : ℕ) → (l ≡ k) ⊎ (get_or distances.new l 0 ≡ get_or distances.old l 0) }
{
    distances[k as usize] = distance;
}

/// How far the beginning of an edge need be raised for the sake of its end, which is raised to a height.
fn reach(edge: Assumption, height: u64, kept: &[u64]) -> u64
    requires from { edge.from < length kept.now }
    requires met { pos (get_or kept.now edge.from 0) ≤ℤ (edge.bound +ℤ pos height) }
    requires near { edge.bound ≤ℤ pos 1000001 }
    requires small { (k : ℕ) → k < length kept.now → get_or kept.now k 0 ≤ 4000000000 }
    requires room { height ≤ 8000000000 }
    ensures { (pos (get_or kept.now edge.from 0) +ℤ pos result) ≡ (edge.bound +ℤ pos height) }
{
    let start = kept[edge.from as usize] as i64;
    (height as i64 + edge.bound - start) as u64
}

/// Puts an input at the end of those that are reached if its distance fell below the limit; gives how many they are.
fn open_input(reached: &mut [u32], count: u32, k: u32, before: u64, after: u64, limit: u64) -> u32
    requires room { limit ≤ before → count < length reached.now }
    requires few { length reached.now ≤ 4294967295 }
    ensures { IsOpened before after limit k count reached.old reached.new result }
{
    if before < limit || after >= limit {
        return count;
    }
    put_number(reached, count, k);
    count + 1
}

/// Looks at one edge: lowers its beginning to what it allows, and opens it if it is reached now; gives how many are open.
fn visit(
    edge: Assumption,
    number: u32,
    height: u64,
    limit: u64,
    kept: &[u64],
    distances: &mut [u64],
    vias: &mut [u32],
    turns: &[u32],
    reached: &mut [u32],
    count: u32,
) -> u32
    requires from { edge.from < length kept.now }
    requires to { edge.to < length kept.now }
    requires few { length kept.now ≤ 64 }
    requires long { length distances.now ≡ length kept.now }
    requires vias { length vias.now ≡ length kept.now }
    requires reached { length reached.now ≡ length kept.now }
    requires met { (pos (get_or kept.now edge.from 0) -ℤ pos (get_or kept.now edge.to 0)) ≤ℤ edge.bound }
    requires near { edge.bound ≤ℤ pos 1000001 }
    requires small { (k : ℕ) → k < length kept.now → get_or kept.now k 0 ≤ 4000000000 }
    requires room { (k : ℕ) → k < length kept.now → get_or distances.now k 0 ≤ 4000000000 }
    requires is_open { IsOpen (length kept.now) distances.now (of turns.now) limit reached.now count }
    requires height { height ≡ get_or kept.now edge.to 0 + get_or distances.now edge.to 0 }
    ensures relaxed { IsRelaxed (of kept.now) distances.old vias.old distances.new vias.new edge number }
    ensures is_open { IsOpen (length kept.now) distances.new (of turns.now) limit reached.new result }
{
    let _ = turns;
    let before = distances[edge.from as usize];
    let distance = reach(edge, height, kept);
    if distance >= before {
        return count;
    }
    put_distance(distances, edge.from, distance);
    put_number(vias, edge.from, number);
    open_input(reached, count, edge.from, before, distance, limit)
}

/// Looks at each edge that leads to k, the last first; gives how many inputs are open.
fn relax_into(
    edges: &[Assumption],
    ends: &Ends,
    k: u32,
    kept: &[u64],
    distances: &mut [u64],
    vias: &mut [u32],
    turns: &[u32],
    reached: &mut [u32],
    count: u32,
    limit: u64,
) -> u32
    requires few { length edges.now ≤ 65536 }
    requires few_inputs { length kept.now ≤ 64 }
    requires listed { IsListed (length kept.now) edges.now ends.now }
    requires there { k < length kept.now }
    requires long { length distances.now ≡ length kept.now }
    requires vias { length vias.now ≡ length kept.now }
    requires met { AreMet (length kept.now) edges.now (of kept.now) }
    requires small { (k : ℕ) → k < length kept.now → get_or kept.now k 0 ≤ 4000000000 }
    requires room { (k : ℕ) → k < length kept.now → get_or distances.now k 0 ≤ 4000000000 }
    requires settled { get_or turns.now k 0 < length kept.now }
    requires reached { length reached.now ≡ length kept.now }
    requires is_open { IsOpen (length kept.now) distances.now (of turns.now) limit reached.now count }
    ensures is_open { IsOpen (length kept.now) distances.new (of turns.now) limit reached.new result }
    ensures running { (turn target limit : ℕ) → IsRunning (length kept.now) edges.now (of kept.now) (of distances.old) (of vias.old) (of turns.now) turn target limit k (length edges.now)
        → IsRunning (length kept.now) edges.now (of kept.now) (of distances.new) (of vias.new) (of turns.now) turn target limit k 0 }
{
    let mut total = count;
    let earlier = ends.to.earlier.as_slice();
    let mut left = ends.to.lasts.as_slice()[k as usize];
    let height = kept[k as usize] + distances[k as usize];
    while left > 0 {
        let number = left - 1;
        total = visit(
            edges[number as usize],
            number,
            height,
            limit,
            kept,
            distances,
            vias,
            turns,
            reached,
            total,
        );
        left = earlier[number as usize];
    }
    total
}

/// Writes the same number everywhere.
fn fill_distances(distances: &mut [u64], limit: u64)
    ensures { (l : ℕ) → l < length distances.old → get_or distances.new l 0 ≡ limit }
{
    for distance in distances.iter_mut() {
        *distance = limit;
    }
}

/// Writes the same number everywhere.
fn fill_turns(turns: &mut [u32], n: u32)
    ensures { (l : ℕ) → l < length turns.old → get_or turns.new l 0 ≡ n }
{
    for turn in turns.iter_mut() {
        *turn = n;
    }
}

/// Settles the inputs one after another, the nearest first, until what was asked for is found.
fn settle(
    edges: &[Assumption],
    ends: &Ends,
    kept: &[u64],
    question: Question,
    n: u32,
    distances: &mut [u64],
    vias: &mut [u32],
    turns: &mut [u32],
    reached: &mut [u32],
)
    requires distances { length distances.now ≡ n }
    requires vias { length vias.now ≡ n }
    requires turns { length turns.now ≡ n }
    requires reached { length reached.now ≡ n }
    requires bounds { IsBounds n edges.now kept.now }
    requires listed { IsListed n edges.now ends.now }
    requires target { question.target < n }
    requires asked { question.asked < n }
    requires limit { question.limit ≤ 4000000000 }
    requires stop { question.stop ≤ question.limit }
    ensures ended { IsEnded n (of distances.new) (of turns.new) question.stop question.asked question.enough }
    ensures running { (turn : ℕ) × ((k : ℕ) × IsRunning n edges.now (of kept.now) (of distances.new) (of vias.new) (of turns.new) turn question.target question.limit k 0) }
{
    let limit = question.limit;
    fill_distances(distances, limit);
    fill_turns(turns, n);
    put_distance(distances, question.target, 0);
    let mut count = open_input(reached, 0, question.target, limit, 0, question.stop);
    let mut turn: u32 = 0;
    while let Some(place) = next(reached, count, distances, turns, n, question) {
        let k = reached[place as usize];
        let last = reached[(count - 1) as usize];
        put_number(reached, place, last);
        put_number(turns, k, turn);
        count = relax_into(
            edges,
            ends,
            k,
            kept,
            distances,
            vias,
            turns,
            reached,
            count - 1,
            question.stop,
        );
        turn += 1;
    }
}

impl Search {
    /// Room for a search over n inputs.
    pub(crate) fn new(alloc: Global, n: u32) -> Result<Search, NoMemory>
        ensures { IfOk result (λ search. IsSized n search) }
    {
        Ok(Search {
            distances: vec![in alloc; 0; n as usize]?,
            vias: vec![in alloc; 0; n as usize]?,
            turns: vec![in alloc; 0; n as usize]?,
            reached: vec![in alloc; 0; n as usize]?,
        })
    }

    /// How far the number of input k has to be raised.
    pub(crate) fn distance(&self, k: u32) -> u64
        requires { k < length self.now.distances.items }
        ensures { result ≡ get_or self.now.distances.items k 0 }
    {
        self.distances.as_slice()[k as usize]
    }

    /// Finds how far the kept numbers are to be raised for the sake of the target's.
    pub(crate) fn run(
        &mut self,
        edges: &[Assumption],
        ends: &Ends,
        kept: &[u64],
        question: Question,
        n: u32,
    )
        requires sized { IsSized n self.old }
        requires bounds { IsBounds n edges.now kept.now }
        requires listed { IsListed n edges.now ends.now }
        requires target { question.target < n }
        requires asked { question.asked < n }
        requires limit { question.limit ≤ 4000000000 }
        requires stop { question.stop ≤ question.limit }
        ensures { IsSearched n edges.now kept.now self.new question.target question.limit question.stop question.asked question.enough }
    {
        settle(
            edges,
            ends,
            kept,
            question,
            n,
            &mut self.distances,
            &mut self.vias,
            &mut self.turns,
            &mut self.reached,
        );
    }
}
