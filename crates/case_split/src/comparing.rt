//! All outputs of two networks, in order.
ghost use Rattle.std.specs.Prelude.{◌≡◌, ◌≤◌, ◌<◌, ℕ, length, IfOk};
ghost use Rattle.std.specs.List.{All};
ghost use Rattle.spike_eval.specs.Premises.{NameInputs};
ghost use Rattle.tree_check.specs.Valid.{outputs};
ghost use Rattle.case_split.specs.Live.{splits, opened};
ghost use Rattle.case_split.specs.Comparison.{IsComparison, HasTree, AreEqual};

use crate::compared::Compared;
use crate::deciding::decide;
use crate::verdict::Verdict;
use net_model::{Assume, Network};
use refutation::{Item, NamedTree, Tree};
use rl_time::NoMemory;
use std::alloc::Global;
use term_store::Store;
use tree_check::valid_trees_decide;

/// Whether the outputs of two networks are equal, each with the output at its place, at all times that meet the premises; each by a tree of at
/// most `budget` items. It ends at the first output that isn't equal or isn't decided. Each output's terms are planted in the store, which
/// is afterwards what it was.
///
/// Both networks have as many inputs, and as many outputs. At most 128 premises name inputs and are by at most 1,000,000 cycles. The budget is
/// 1 to 1,000,000, and the store holds at most 131,072 nodes. The error is that memory ran out.
pub fn compare(
    alloc: Global,
    first: &Network,
    second: &Network,
    premises: &[Assume],
    budget: u32,
    store: &mut Store,
) -> Result<Compared, NoMemory>
    requires same_inputs { length first.now.inputs ≡ length second.now.inputs }
    requires same_outputs { length first.now.outputs ≡ length second.now.outputs }
    requires few_premises { length premises.now ≤ 128 }
    requires premises_name_inputs { NameInputs (length first.now.inputs) premises.now }
    requires small_premises { All (λ p. p.by ≤ 1000000) premises.now }
    requires some_budget { 1 ≤ budget }
    requires small_budget { budget ≤ 1000000 }
    requires room { length store.old.nodes ≤ 131072 }
    ensures compared { IfOk result (IsComparison premises.now first.now second.now budget) }
    ensures complete { ((k : ℕ) → k < length first.now.outputs → HasTree premises.now (outputs first.now second.now k) budget) → IfOk result AreEqual }
    ensures store { store.new.nodes ≡ store.old.nodes }
{
    valid_trees_decide();
    first.rules();
    let mut trees = Vec::new(alloc);
    for (out, output) in first.outputs().iter().enumerate() {
        let out = out as u32;
        match decide(alloc, first, second, out, premises, budget, store)? {
            Verdict::Equal(tree) => trees.push(NamedTree {
                name: output.name().copy(alloc)?,
                tree,
            })?,
            Verdict::Different(times) => return Ok(Compared::Different(out, times)),
            Verdict::Undecided(tree) => return Ok(Compared::Undecided(out, cases(&tree))),
        }
    }
    Ok(Compared::Equal(trees))
}

/// How many cases were opened.
fn cases(tree: &Tree) -> u32
    requires few { opened tree.now ≤ 1000000 }
    ensures { result ≡ opened tree.now }
{
    1 + 2 * count_splits(tree.items())
}

/// How many of the items are splits.
fn count_splits(items: &[Item]) -> u32
    requires few { splits items.now ≤ 1000000 }
    ensures { result ≡ splits items.now }
{
    let mut count = 0;
    for item in items {
        if let Item::Split(_, _, _) = item {
            count += 1;
        }
    }
    count
}
