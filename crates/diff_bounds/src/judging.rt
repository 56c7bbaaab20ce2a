ghost use Rattle.std.specs.Prelude.{pos, negsuc, ◌+ℤ◌, ◌-ℤ◌, ◌≤ℤ◌, ◌≡◌, ◌≤◌, ◌<◌, ◌+◌, ◌++◌, ◌∷◌, [], ℕ, length, get_or, true, false, IfOk, OnOk, OnErr, IfSome, IfNone};
ghost use Rattle.refutation.specs.Path.{is_negative};
ghost use Rattle.diff_bounds.specs.Bounds.{IsSolution, Implies};
ghost use Rattle.diff_bounds.specs.Verdict.{IsVerdict, IfContradiction, grown};
ghost use Rattle.diff_bounds.specs.Pressing.{IsNear};
ghost use Rattle.diff_bounds.specs.Search.{IsSized, IsBounds, IsListed};

use crate::added::Added;
use crate::ends::Ends;
use crate::following::follow;
use crate::leading::{lead, slack};
use crate::pressing::press;
use crate::search::{Question, Search};
use refutation::{Assumption, Chain};
use rl_time::NoMemory;
use std::alloc::Global;

/// How much less the difference of the kept numbers has to become to meet an assumption; 0 where they meet it.
fn need(edge: Assumption, kept: &[u64]) -> u64
    requires from { edge.from < length kept.now }
    requires to { edge.to < length kept.now }
    requires small { (k : ℕ) → k < length kept.now → get_or kept.now k 0 ≤ 63000063 }
    requires low { negsuc 1000000 ≤ℤ edge.bound }
    requires high { edge.bound ≤ℤ pos 1000001 }
    ensures more { (0 < result) → (pos (get_or kept.now edge.from 0) -ℤ pos (get_or kept.now edge.to 0)) ≡ (edge.bound +ℤ pos result) }
    ensures met { result ≡ 0 → (pos (get_or kept.now edge.from 0) -ℤ pos (get_or kept.now edge.to 0)) ≤ℤ edge.bound }
    ensures small { result ≤ 4000000000 }
{
    let start = kept[edge.from as usize] as i64;
    let end = kept[edge.to as usize] as i64;
    let need = start - end - edge.bound;
    if need > 0 { need as u64 } else { 0 }
}

/// By how much the difference of the kept numbers has to grow to break an assumption that they meet.
fn room(edge: Assumption, kept: &[u64]) -> u64
    requires from { edge.from < length kept.now }
    requires to { edge.to < length kept.now }
    requires small { (k : ℕ) → k < length kept.now → get_or kept.now k 0 ≤ 63000063 }
    requires high { edge.bound ≤ℤ pos 1000001 }
    requires met { (pos (get_or kept.now edge.from 0) -ℤ pos (get_or kept.now edge.to 0)) ≤ℤ edge.bound }
    ensures room { ((pos (get_or kept.now edge.from 0) -ℤ pos (get_or kept.now edge.to 0)) +ℤ pos result) ≡ (edge.bound +ℤ pos 1) }
    ensures small { result ≤ 4000000000 }
{
    slack(edge, kept) + 1
}

/// Raises each number by its distance.
fn raise(kept: &mut [u64], distances: &[u64])
    requires long { length distances.now ≡ length kept.now }
    requires small { (k : ℕ) → k < length kept.now → get_or kept.now k 0 ≤ 4000000000 }
    requires room { (k : ℕ) → k < length kept.now → get_or distances.now k 0 ≤ 4000000000 }
    ensures { (k : ℕ) → k < length kept.old → get_or kept.new k 0 ≡ get_or kept.old k 0 + get_or distances.now k 0 }
{
    for k in 0..kept.len() {
        kept[k] += distances[k];
    }
}

/// Whether the assumptions imply one that the kept numbers meet.
fn is_implied(
    edges: &[Assumption],
    ends: &Ends,
    edge: Assumption,
    kept: &[u64],
    n: u32,
    search: &mut Search,
) -> bool
    requires sized { IsSized n search.old }
    requires bounds { IsBounds n edges.now kept.now }
    requires listed { IsListed n edges.now ends.now }
    requires near { IsNear n edge }
    requires met { (pos (get_or kept.now edge.from 0) -ℤ pos (get_or kept.now edge.to 0)) ≤ℤ edge.bound }
    ensures implied { result ≡ true → Implies edges.now edge.from edge.to edge.bound }
    ensures not_implied { result ≡ false → Implies edges.now edge.from edge.to edge.bound → ⊥ }
    ensures sized { IsSized n search.new }
{
    let room = room(edge, kept);
    let question = Question {
        target: edge.to,
        limit: room,
        stop: room - lead(edges, ends, kept, edge.from, n, room),
        asked: edge.from,
        enough: room,
    };
    search.run(edges, ends, kept, question, n);
    search.distance(edge.from) < room
}

/// Mends the kept numbers for a new assumption that they don't meet, or finds the negative chain that it closes.
fn mend(
    alloc: Global,
    edges: &[Assumption],
    ends: &Ends,
    edge: Assumption,
    by: u64,
    kept: &mut [u64],
    n: u32,
    search: &mut Search,
) -> Result<Option<Chain>, NoMemory>
    requires sized { IsSized n search.old }
    requires bounds { IsBounds n edges.now kept.old }
    requires listed { IsListed n edges.now ends.now }
    requires near { IsNear n edge }
    requires by { (pos (get_or kept.old edge.from 0) -ℤ pos (get_or kept.old edge.to 0)) ≡ (edge.bound +ℤ pos by) }
    requires small { by ≤ 4000000000 }
    ensures mended { IfOk result (λ found. IfNone found (IsSolution n (edges.now ++ edge ∷ []) kept.new)) }
    ensures negative { IfOk result (λ found. IfSome found (λ chain. is_negative (edges.now ++ edge ∷ []) chain ≡ true)) }
    ensures short { IfOk result (λ found. IfSome found (λ chain. length chain ≤ n)) }
    ensures same { IfOk result (λ found. IfSome found (λ chain. kept.new ≡ kept.old)) }
    ensures unchanged { OnErr result (kept.new ≡ kept.old) }
    ensures sized { IsSized n search.new }
{
    let question = Question {
        target: edge.from,
        limit: by,
        stop: by,
        asked: edge.to,
        enough: 0,
    };
    search.run(edges, ends, kept, question, n);
    if search.distance(edge.to) < by {
        let mut chain = Chain::new(alloc);
        chain.push(edges.len() as u32)?;
        follow(&mut chain, edges, kept, search, question, n)?;
        return Ok(Some(chain));
    }
    raise(kept, &search.distances);
    press(kept);
    Ok(None)
}

/// Judges one assumption more. Where it can be met with the others, the numbers meet it afterwards.
pub(crate) fn judge(
    alloc: Global,
    edges: &[Assumption],
    ends: &Ends,
    edge: Assumption,
    kept: &mut [u64],
    n: u32,
    search: &mut Search,
) -> Result<Added, NoMemory>
    requires sized { IsSized n search.old }
    requires bounds { IsBounds n edges.now kept.old }
    requires listed { IsListed n edges.now ends.now }
    requires near { IsNear n edge }
    ensures verdict { IfOk result (λ added. IsVerdict edges.now edge.from edge.to edge.bound added) }
    ensures short { IfOk result (λ added. IfContradiction added (λ chain. length chain ≤ n)) }
    ensures kept { IfOk result (λ added. IsSolution n (grown edges.now edge.from edge.to edge.bound added) kept.new) }
    ensures unchanged { OnErr result (kept.new ≡ kept.old) }
    ensures sized { IsSized n search.new }
{
    let need = need(edge, kept);
    if need > 0 {
        return match mend(alloc, edges, ends, edge, need, kept, n, search)? {
            None => Ok(Added::Fresh),
            Some(chain) => Ok(Added::Contradiction(chain)),
        };
    }
    if is_implied(edges, ends, edge, kept, n, search) {
        Ok(Added::Held)
    } else {
        Ok(Added::Fresh)
    }
}

/// Puts an assumption at the end, unless it is a contradiction. One that the others imply is not listed.
pub(crate) fn keep(
    assumptions: &mut Vec<Assumption>,
    ends: &mut Ends,
    edge: Assumption,
    added: &Added,
    n: u32,
) -> Result<(), NoMemory>
    requires listed { IsListed n assumptions.old.items ends.old }
    requires from { edge.from < n }
    requires to { edge.to < n }
    requires room { length assumptions.old.items < 65536 }
    requires verdict { IsVerdict assumptions.old.items edge.from edge.to edge.bound added.now }
    ensures grown { OnOk result (assumptions.new.items ≡ grown assumptions.old.items edge.from edge.to edge.bound added.now) }
    ensures unchanged { OnErr result (assumptions.new.items ≡ assumptions.old.items) }
    ensures listed { IsListed n assumptions.new.items ends.new }
{
    match added {
        Added::Fresh => ends.push(assumptions, edge, n)?,
        Added::Held => ends.push_held(assumptions, edge, n)?,
        Added::Contradiction(_) => return Ok(()),
    }
    if assumptions.push(edge).is_err() {
        ends.pop(assumptions, edge, n);
        return Err(NoMemory);
    }
    Ok(())
}
