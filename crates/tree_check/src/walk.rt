ghost use Rattle.std.specs.Prelude.{◌≡◌, ◌≤◌, ◌<◌, [], ◌∷◌, ◌++◌, List, length, All, IfOk, IsOk};
ghost use Rattle.std.specs.Bool.{MatchBool};
ghost use Rattle.refutation.specs.declared.assumption.Assumption.{Assumption};
ghost use Rattle.refutation.specs.Cases.{below};
ghost use Rattle.refutation.specs.Limits.{KeepsLimits, IsSmallItem};
ghost use Rattle.spike_eval.specs.Outputs.{output_function};
ghost use Rattle.spike_eval.specs.Premises.{NameInputs, AreEqualUnder};
ghost use Rattle.tree_check.specs.Valid.{outputs, root, IsValid};
ghost use Rattle.tree_check.specs.Verdict.{flawed, placed, verdict, IsVerdict};

use crate::fault::{CheckFault, Flaw};
use crate::leaf::item_flaw;
use crate::output::Output;
use crate::shape::misshapen;
use crate::stack::Stack;
use crate::table::Table;
use net_model::{Assume, Network};
use refutation::{Item, Tree};
use rl_time::NoMemory;
use std::alloc::Global;

/// Whether the tree is valid for output `out` of two networks under premises, so that the outputs are equal at all times
/// that meet the premises; else the first fault. The shape of all items is judged first, then each item in order.
///
/// Both networks have the same number of inputs. The premises name inputs and are by at most 1,000,000 cycles.
pub fn check(
    alloc: Global,
    first: &Network,
    second: &Network,
    out: u32,
    premises: &[Assume],
    tree: &Tree,
) -> Result<(), CheckFault>
    requires same_inputs { length first.now.inputs ≡ length second.now.inputs }
    requires first_has { out < length first.now.outputs }
    requires second_has { out < length second.now.outputs }
    requires premises_name_inputs { NameInputs (length first.now.inputs) premises.now }
    requires small_premises { All (λ p. p.by ≤ 1000000) premises.now }
    requires limits { KeepsLimits tree.now }
    ensures verdict { IsVerdict result (verdict premises.now (outputs first.now second.now out) tree.now) }
    ensures valid { IsOk result → IsValid premises.now (outputs first.now second.now out) tree.now }
    ensures equal { IsOk result → AreEqualUnder premises.now (length first.now.inputs)
        (output_function first.now out) (output_function second.now out) }
{
    crate::laws::valid_or_fault();
    crate::laws::valid_trees_decide();
    let items = tree.items();
    if let Some(place) = misshapen(first.inputs().len(), items) {
        return Err(CheckFault::Shape(place));
    }
    match walk(alloc, first, second, out, premises, items) {
        Ok(None) => Ok(()),
        Ok(Some(fault)) => Err(fault),
        Err(_) => Err(CheckFault::NoMemory),
    }
}

/// The first flaw of the items in order, each on its path. The items have the shape of a tree.
fn walk(
    alloc: Global,
    first: &Network,
    second: &Network,
    out: u32,
    premises: &[Assume],
    items: &[Item],
) -> Result<Option<CheckFault>, NoMemory>
    requires first_has { out < length first.now.outputs }
    requires second_has { out < length second.now.outputs }
    requires small_premises { All (λ p. p.by ≤ 1000000) premises.now }
    requires limits { KeepsLimits items.now }
    ensures { IfOk result (λ fault. fault ≡ flawed (outputs first.now second.now out) (root premises.now ∷ []) 0 items.now) }
{
    let mut table = Table::new(alloc)?;
    let mut one = Output::new(alloc, first, out)?;
    let mut other = Output::new(alloc, second, out)?;
    let mut stack = Stack::new(alloc, premises)?;
    let mut place: u32 = 0;
    for item in items {
        if let Some(flaw) = item_flaw(
            &mut table,
            place + 1,
            &mut one,
            &mut other,
            stack.path(),
            item,
        ) {
            return Ok(Some(placed(place, flaw)));
        }
        if !step(&mut stack, item)? {
            return Ok(None);
        }
        place += 1;
    }
    Ok(None)
}

fn placed(place: u32, flaw: Flaw) -> CheckFault
    ensures { result ≡ placed place flaw }
{
    match flaw {
        Flaw::BadChain(n) => CheckFault::BadChain(place, n),
        Flaw::NotNegative => CheckFault::NotNegative(place),
        Flaw::NotDecided(side) => CheckFault::NotDecided(place, side),
        Flaw::Unequal => CheckFault::Unequal(place),
        Flaw::StillOpen => CheckFault::StillOpen(place),
    }
}

/// Goes past an item: the paths of its subtrees take the place of its own. Whether a path is left.
fn step(stack: &mut Stack, item: &Item) -> Result<bool, NoMemory>
    requires limits { IsSmallItem item.now }
    ensures { (path : List Assumption) (paths : List (List Assumption)) → stack.old ≡ path ∷ paths →
        IfOk result (λ more. MatchBool more (stack.new ≡ below path item.now ++ paths) (below path item.now ++ paths ≡ [])) }
{
    match item {
        Item::Split(i, j, w) => {
            stack.split(*i, *j, *w)?;
            Ok(true)
        }
        _ => stack.next(),
    }
}
