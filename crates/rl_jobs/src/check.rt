ghost use Rattle.std.specs.Prelude.{◌≡◌, ◌≢◌, ◌≤◌, ◌++◌, length, slice_get, OnOk, IfOk, IfErr, IfSome, Some, None, true, false};
ghost use Rattle.std.specs.Bool.{OnTrue, OnFalse};
ghost use Rattle.std.specs.List.{AllByRecursion};
ghost use Rattle.refutation.specs.Spelling.{SpellsTrees};
ghost use Rattle.refutation.specs.Trees.{IsTree};
ghost use Rattle.tree_check.specs.declared.fault.CheckFault.TheVariants as flaw;
ghost use Rattle.rl_jobs.specs.declared.fault.Fault.TheVariants as fault;
ghost use Rattle.rl_jobs.specs.declared.error.JobError.TheVariants.{Refused};
ghost use Rattle.rl_jobs.specs.Sources.{FailsBy};
ghost use Rattle.rl_jobs.specs.Checked.{three_texts, AreNoTrees, DifferAt, Agree, Disagree, accepted_line, at_item, reason_text, refused_line, AreAccepted, AreRefused, IsAcceptedText, IsRefusedText, AreNotChecked};

use crate::error::JobError;
use crate::fault::Fault;
use crate::names::{names, tree_names};
use crate::reading::read_network_of;
use net_lang::Network;
use refutation::{NamedTree, TreeError, read_tree, what_is_spelled_are_trees};
use rl_text::{Name, put, put_number};
use rl_time::NoMemory;
use std::alloc::Global;
use tree_check::{CheckFault, check as check_tree, valid_trees_decide};

/// What trees show of two networks, and the lines that say it.
#[derive(Drop)]
pub struct Checked {
    /// Whether all trees are valid.
    pub accepted: bool,
    pub text: Vec<u8>,
}

/// The fault of a rule that a text of trees breaks.
fn broken_trees(file: u8, rule: refutation::Rule, line: u32) -> JobError
    ensures { result ≡ Refused (fault.Trees file rule line) }
{
    JobError::Refused(Fault::Trees(file, rule, line))
}

/// Reads the trees of a file, which has this number among the files of the command.
fn read_trees_of(alloc: Global, file: u8, bytes: &[u8]) -> Result<Vec<NamedTree>, JobError>
    requires short { length bytes.now ≤ 67108864 }
    ensures trees { IfOk result (λ trees. SpellsTrees bytes.now trees.items) }
    ensures cause { IfErr result (FailsBy (AreNoTrees file bytes.now)) }
{
    match read_tree(alloc, bytes) {
        Ok(trees) => Ok(trees),
        Err(TreeError::Syntax(line)) => Err(broken_trees(file, refutation::Rule::Syntax, line)),
        Err(TreeError::Range(line)) => Err(broken_trees(file, refutation::Rule::Range, line)),
        Err(TreeError::Long(line)) => Err(broken_trees(file, refutation::Rule::Long, line)),
        Err(TreeError::Count(line)) => Err(broken_trees(file, refutation::Rule::Count, line)),
        Err(TreeError::NoMemory) => Err(JobError::NoMemory),
    }
}

/// Whether this name is at this place, from 0, of the names.
fn is_at(names: &[Name], place: usize, name: &Name) -> bool
    ensures yes { OnTrue result (slice_get names.now place ≡ Some name.now) }
    ensures no { OnFalse result (slice_get names.now place ≢ Some name.now) }
{
    match names.get(place) {
        Some(other) => other.bytes() == name.bytes(),
        None => false,
    }
}

/// The first place, from 1, where two lists of names differ: also one that only one of them has.
pub(crate) fn first_difference(a: &[Name], b: &[Name]) -> Option<u64>
    ensures place { IfSome result (DifferAt a.now b.now) }
    ensures none { result ≡ None → a.now ≡ b.now }
{
    for (place, name) in a.iter().enumerate() {
        if !is_at(b, place, name) {
            return Some(place as u64 + 1);
        }
    }
    if a.len() < b.len() {
        Some(a.len() as u64 + 1)
    } else {
        None
    }
}

/// Refuses networks whose inputs or outputs have other names, and trees that are not those of the outputs.
fn compare_names(
    alloc: Global,
    first: &Network,
    second: &Network,
    trees: &[NamedTree],
) -> Result<(), JobError>
    ensures agree { OnOk result (Agree ((first.now, second.now), trees.now)) }
    ensures cause { IfErr result (FailsBy (Disagree ((first.now, second.now), trees.now))) }
{
    if let Some(place) = first_difference(first.inputs(), second.inputs()) {
        return Err(JobError::Refused(Fault::InputNames(place)));
    }
    let outputs = names(alloc, first.outputs())?;
    if let Some(place) = first_difference(&outputs, &names(alloc, second.outputs())?) {
        return Err(JobError::Refused(Fault::OutputNames(place)));
    }
    match first_difference(&tree_names(alloc, trees)?, &outputs) {
        Some(_) => Err(JobError::Refused(Fault::TreeNames)),
        None => Ok(()),
    }
}

/// Adds the line of an output whose tree is valid.
fn put_accepted(text: &mut Vec<u8>, name: &Name) -> Result<(), NoMemory>
    ensures { OnOk result (text.new.items ≡ text.old.items ++ accepted_line name.now) }
{
    put(text, b"accepted ")?;
    put(text, name.bytes())?;
    put(text, b"\n")
}

/// Adds the number of an item, from 0, and what is wrong with it.
fn put_item(text: &mut Vec<u8>, item: u32, reason: &[u8]) -> Result<(), NoMemory>
    ensures { OnOk result (text.new.items ≡ text.old.items ++ at_item item reason.now) }
{
    put(text, b" item ")?;
    put_number(text, item)?;
    put(text, b" ")?;
    put(text, reason)
}

/// Adds the item that has a fault, and the fault.
fn put_reason(text: &mut Vec<u8>, fault: CheckFault) -> Result<(), NoMemory>
    requires named { fault ≢ flaw.NoMemory }
    ensures { OnOk result (text.new.items ≡ text.old.items ++ reason_text fault) }
{
    match fault {
        CheckFault::Shape(item) => put_item(text, item, b"shape"),
        CheckFault::BadChain(item, fact) => {
            put_item(text, item, b"bad-chain ")?;
            put_number(text, fact)
        }
        CheckFault::NotNegative(item) => put_item(text, item, b"not-negative"),
        CheckFault::NotDecided(item, side) => {
            put_item(text, item, b"not-decided ")?;
            put_number(text, side)
        }
        CheckFault::Unequal(item) => put_item(text, item, b"unequal"),
        CheckFault::StillOpen(item) => put_item(text, item, b"open"),
        CheckFault::NoMemory => unreachable!(),
    }
}

/// Adds the line of an output whose tree has this fault.
fn put_refused(text: &mut Vec<u8>, name: &Name, fault: CheckFault) -> Result<(), NoMemory>
    requires named { fault ≢ flaw.NoMemory }
    ensures { OnOk result (text.new.items ≡ text.old.items ++ refused_line name.now fault) }
{
    put(text, b"refused ")?;
    put(text, name.bytes())?;
    put_reason(text, fault)?;
    put(text, b"\n")
}

/// Checks the tree of each output, up to the first that isn't valid, and writes a line for each.
fn check_trees(
    alloc: Global,
    first: &Network,
    second: &Network,
    trees: &[NamedTree],
) -> Result<Checked, NoMemory>
    requires agree { Agree ((first.now, second.now), trees.now) }
    requires limits { AllByRecursion IsTree trees.now }
    ensures accepted { IfOk result (λ c. c.accepted ≡ true → AreAccepted ((first.now, second.now), trees.now) c.text.items) }
    ensures refused { IfOk result (λ c. c.accepted ≡ false → AreRefused ((first.now, second.now), trees.now) c.text.items) }
{
    valid_trees_decide();
    first.rules();
    second.rules();
    let mut text = Vec::new(alloc);
    for (place, named) in trees.iter().enumerate() {
        match check_tree(alloc, first, second, place as u32, &[], &named.tree) {
            Ok(()) => put_accepted(&mut text, &named.name)?,
            Err(CheckFault::NoMemory) => return Err(NoMemory),
            Err(fault) => {
                put_refused(&mut text, &named.name, fault)?;
                return Ok(Checked {
                    accepted: false,
                    text,
                });
            }
        }
    }
    Ok(Checked {
        accepted: true,
        text,
    })
}

/// Checks by the trees of a third file that the outputs of the networks of two files are equal: a line for each output,
/// up to the first whose tree isn't valid. The networks must have the same inputs and outputs, by name and order, and
/// there must be a tree for each output, in their order.
pub fn check(alloc: Global, first: &[u8], second: &[u8], trees: &[u8]) -> Result<Checked, JobError>
    requires first { length first.now ≤ 1048576 }
    requires second { length second.now ≤ 1048576 }
    requires trees { length trees.now ≤ 67108864 }
    ensures accepted { IfOk result (λ c. c.accepted ≡ true →
        IsAcceptedText (three_texts first.now second.now trees.now) c.text.items) }
    ensures refused { IfOk result (λ c. c.accepted ≡ false →
        IsRefusedText (three_texts first.now second.now trees.now) c.text.items) }
    ensures cause { IfErr result (FailsBy (AreNotChecked (three_texts first.now second.now trees.now))) }
{
    what_is_spelled_are_trees();
    let first = read_network_of(alloc, 1, first)?;
    let second = read_network_of(alloc, 2, second)?;
    let trees = read_trees_of(alloc, 3, trees)?;
    compare_names(alloc, &first, &second, &trees)?;
    Ok(check_trees(alloc, &first, &second, &trees)?)
}
