ghost use Rattle.std.specs.Prelude.{◌≡◌, ◌≤◌, ◌<◌, ◌++◌, ◌∷◌, [], IfOk, length, replicate};
ghost use Rattle.refutation.specs.declared.item.Item.TheVariants as item;
ghost use Rattle.term_store.specs.Trees.{tree};
ghost use Rattle.case_split.specs.Steps.{width};
ghost use Rattle.case_split.specs.Task.{IsTask, joins};
ghost use Rattle.case_split.specs.Verdicts.{IsDecision};

use crate::advancing::advance;
use crate::comparison::Comparison;
use crate::ending::{Decision, Ending};
use crate::leaf::judge;
use crate::question::Question;
use crate::stages::Stages;
use crate::ways::difference_on_ways;
use net_model::Assume;
use refutation::{Item, Tree};
use rl_time::NoMemory;
use std::alloc::Global;
use term_store::{Store, Term};

/// Whether two places of a store have equal terms at all times that meet the premises, by at most so many cases.
pub fn settle(
    alloc: Global,
    store: &Store,
    first: Term,
    second: Term,
    inputs: u32,
    premises: &[Assume],
    budget: u32,
) -> Result<Decision, NoMemory>
    requires task { IsTask (record { inputs = inputs; premises = premises.now; nodes = store.now.nodes; roots = first ∷ second ∷ [] }) }
    requires some { 1 ≤ budget }
    requires few { budget ≤ 1000000 }
    ensures { IfOk result (IsDecision inputs premises.now (tree store.now.nodes first.0) (tree store.now.nodes second.0) (joins store.now.nodes) budget) }
{
    if let Some(apart) = difference_on_ways(alloc, store, first, second, inputs, premises)? {
        return Ok(Decision::Different(apart));
    }
    let question = Question::new(store, first, second, inputs, premises);
    let mut stages = Stages::new(alloc, inputs, premises)?;
    let mut items = Tree::new(alloc);
    let mut opened: u32 = 1;
    'walk: loop {
        match advance(&question, &mut stages)? {
            Some(choice) => {
                if opened + 2 > budget {
                    return Ok(Decision::Undecided(left_open(items, stages.pending())?));
                }
                items.push(split_on(choice.comparison))?;
                stages.split(choice)?;
                opened += 2;
            }
            None => match judge(alloc, &mut stages, first, second)? {
                Ending::Different(numbers) => return Ok(Decision::Different(numbers)),
                Ending::Equal(facts) => {
                    items.push(Item::Leaf(facts))?;
                    if !stages.back()? {
                        return Ok(Decision::Equal(items));
                    }
                }
            },
        }
    }
}

/// The split on a comparison.
fn split_on(comparison: Comparison) -> Item
    requires from_cycles { comparison.from_cycles ≤ 1000000 }
    requires to_cycles { comparison.to_cycles ≤ 1000000 }
    ensures { result ≡ item.Split comparison.from comparison.to (width comparison) }
{
    Item::Split(
        comparison.from,
        comparison.to,
        i64::from(comparison.to_cycles) - i64::from(comparison.from_cycles),
    )
}

/// The items so far, and open items for so many pending paths.
fn left_open(items: Tree, count: usize) -> Result<Tree, NoMemory>
    ensures { IfOk result (λ tree. tree ≡ items ++ replicate count item.Unsettled) }
{
    let mut items = items;
    for _done in 0..count {
        items.push(Item::Unsettled)?;
    }
    Ok(items)
}
