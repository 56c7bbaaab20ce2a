ghost use Rattle.std.specs.Prelude.{◌≡◌, ◌≤◌, ◌<◌, IfOk, List, ℕ, length};
ghost use Rattle.std.specs.List.{All};
ghost use Rattle.net_model.specs.declared.assume.Assume.{Assume};
ghost use Rattle.refutation.specs.declared.item.Item.{Item};
ghost use Rattle.spike_eval.specs.Causal.{numbers};
ghost use Rattle.spike_eval.specs.Premises.{NameInputs};
ghost use Rattle.term_store.specs.Nodes.{IsNodes};
ghost use Rattle.term_store.specs.Subterms.{join_count};
ghost use Rattle.term_store.specs.Terms.{tree_in, network_trees};
ghost use Rattle.term_store.specs.Trees.{IsPrefix};
ghost use Rattle.tree_check.specs.Valid.{Pair, IsValid, outputs};
ghost use Rattle.case_split.specs.Live.{pair_terms};
ghost use Rattle.case_split.specs.Parted.{IsPart};
ghost use Rattle.case_split.specs.Verdicts.{IsRight, IsEqual, IsDecision};

use crate::drawing::early_difference;
use crate::ending::Decision;
use crate::verdict::Verdict;
use crate::walk::settle;
use net_model::{Assume, Network};
use rl_time::{NoMemory, Time};
use std::alloc::Global;
use term_store::{Store, Term};
use tree_check::valid_trees_decide;

/// Whether output `out` of two networks is equal at all times that meet the premises, by a least tree, of at most `budget` items. It is
/// undecided only where no valid tree has as few. Drawn times and single ways through the cases come first, and count as no items. Both
/// outputs are planted in the store, which is afterwards what it was.
///
/// Both networks have the same number of inputs. At most 128 premises name inputs and are by at most 1,000,000 cycles. The budget is 1 to
/// 1,000,000, and the store holds at most 131,072 nodes. The error is that memory ran out.
pub fn decide(
    alloc: Global,
    first: &Network,
    second: &Network,
    out: u32,
    premises: &[Assume],
    budget: u32,
    store: &mut Store,
) -> Result<Verdict, NoMemory>
    requires same_inputs { length first.now.inputs ≡ length second.now.inputs }
    requires first_has { out < length first.now.outputs }
    requires second_has { out < length second.now.outputs }
    requires few_premises { length premises.now ≤ 128 }
    requires premises_name_inputs { NameInputs (length first.now.inputs) premises.now }
    requires small_premises { All (λ p. p.by ≤ 1000000) premises.now }
    requires some_budget { 1 ≤ budget }
    requires small_budget { budget ≤ 1000000 }
    requires room { length store.old.nodes ≤ 131072 }
    ensures right { IfOk result (IsRight premises.now (outputs first.now second.now out) budget) }
    ensures complete { (items : List Item) → IsValid premises.now (outputs first.now second.now out) items → length items ≤ budget → IfOk result IsEqual }
    ensures store { store.new.nodes ≡ store.old.nodes }
{
    valid_trees_decide();
    let mark = store.mark();
    let verdict = decide_planted(alloc, first, second, out, premises, budget, store);
    store.release(mark);
    verdict
}

/// The same, but what was planted stays in the store.
fn decide_planted(
    alloc: Global,
    first: &Network,
    second: &Network,
    out: u32,
    premises: &[Assume],
    budget: u32,
    store: &mut Store,
) -> Result<Verdict, NoMemory>
    requires same_inputs { length first.now.inputs ≡ length second.now.inputs }
    requires first_has { out < length first.now.outputs }
    requires second_has { out < length second.now.outputs }
    requires few_premises { length premises.now ≤ 128 }
    requires premises_name_inputs { NameInputs (length first.now.inputs) premises.now }
    requires small_premises { All (λ p. p.by ≤ 1000000) premises.now }
    requires some_budget { 1 ≤ budget }
    requires small_budget { budget ≤ 1000000 }
    requires room { length store.old.nodes ≤ 131072 }
    ensures right { IfOk result (IsRight premises.now (outputs first.now second.now out) budget) }
    ensures grown { IsPrefix store.old.nodes store.new.nodes }
{
    first.rules();
    second.rules();
    let (part, one, other) = planted(alloc, first, second, out, store)?;
    part.rules();
    let inputs = first.inputs().len() as u32;
    if let Some(times) = early_difference(alloc, &part, one, other, inputs, premises)? {
        return Ok(Verdict::Different(times));
    }
    let decision = settle(alloc, &part, one, other, inputs, premises, budget)?;
    verdict(alloc, decision)
}

/// Plants output `out` of two networks: a store of only these two terms, and their places there.
fn planted(
    alloc: Global,
    first: &Network,
    second: &Network,
    out: u32,
    store: &mut Store,
) -> Result<(Store, Term, Term), NoMemory>
    requires first_has { out < length first.now.outputs }
    requires second_has { out < length second.now.outputs }
    requires room { length store.old.nodes ≤ 131072 }
    ensures part { IfOk result (λ part. IsPart (outputs first.now second.now out) part.0.nodes part.1 part.2) }
    ensures grown { IsPrefix store.old.nodes store.new.nodes }
{
    let first_places = store.build(alloc, first)?;
    let second_places = store.build(alloc, second)?;
    let roots = [first_places[out as usize], second_places[out as usize]];
    let (part, places) = store.part(alloc, &roots)?;
    Ok((part, places[0], places[1]))
}

/// What was found of two outputs, from what was found of their terms.
fn verdict(alloc: Global, decision: Decision) -> Result<Verdict, NoMemory>
    ensures { (premises : List Assume) (pair : Pair) (budget : ℕ) → NameInputs (length pair.first.inputs) premises →
        IsDecision (length pair.first.inputs) premises (tree_in (network_trees pair.first) pair.place) (tree_in (network_trees pair.second) pair.place)
        (join_count (pair_terms pair)) budget decision →
        IfOk result (IsRight premises pair budget) }
{
    match decision {
        Decision::Equal(tree) => Ok(Verdict::Equal(tree)),
        Decision::Different(times) => Ok(Verdict::Different(as_times(alloc, &times)?)),
        Decision::Undecided(tree) => Ok(Verdict::Undecided(tree)),
    }
}

/// The numbers as times.
fn as_times(alloc: Global, ns: &[u64]) -> Result<Vec<Time>, NoMemory>
    ensures { IfOk result (λ times. times.items ≡ numbers ns.now) }
{
    let mut times = Vec::with_capacity(alloc, ns.len())?;
    for n in ns {
        times.push(Time::At(*n))?;
    }
    Ok(times)
}
