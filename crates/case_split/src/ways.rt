//! Single ways through the cases, on which each side is drawn. A difference that is seldom drawn shows at the end of most ways that
//! come near it.
ghost use Rattle.std.specs.Prelude.{◌≡◌, ◌++◌, ◌∷◌, [], length, IfOk, IfSome, OnOk};
ghost use Rattle.refutation.specs.Cases.{Path};
ghost use Rattle.term_store.specs.Trees.{tree};
ghost use Rattle.tree_check.specs.Valid.{root};
ghost use Rattle.case_split.specs.Leaves.{AreApart};
ghost use Rattle.case_split.specs.Task.{IsTask};
ghost use Rattle.case_split.specs.Walk.{IsAt};

use crate::advancing::advance;
use crate::ending::Ending;
use crate::leaf::{form_at, judge};
use crate::question::Question;
use crate::stages::Stages;
use net_model::Assume;
use rand_core::utils::NextWord;
use rand_pcg::Pcg32;
use rl_time::NoMemory;
use std::alloc::Global;
use term_store::{Store, Term};
use tree_check::Form;

/// How many places get forms on all ways together, at most: large terms get fewer ways.
const WAYS_PLACES: usize = 32_768;

/// The most ways.
const MOST_WAYS: usize = 1024;

/// A number for each of so many inputs, which meet the premises, and at which two places of a store differ: at the end of the first
/// way that shows it, of at most 1,024, always the same ones, or `None` where none of them does. None is tried where the two places
/// are one.
pub fn difference_on_ways(
    alloc: Global,
    store: &Store,
    first: Term,
    second: Term,
    inputs: u32,
    premises: &[Assume],
) -> Result<Option<Vec<u64>>, NoMemory>
    requires task { IsTask (record { inputs = inputs; premises = premises.now; nodes = store.now.nodes; roots = first ∷ second ∷ [] }) }
    ensures { IfOk result (λ found. IfSome found (λ numbers.
        AreApart inputs (root premises.now) (tree store.now.nodes first.0) (tree store.now.nodes second.0) numbers.items)) }
{
    if first == second {
        return Ok(None);
    }
    let question = Question::new(store, first, second, inputs, premises);
    let mut stages = Stages::new(alloc, inputs, premises)?;
    let mut draws = Pcg32::new(42, 54);
    for _way in 0..(WAYS_PLACES / question.len().max(1)).min(MOST_WAYS) {
        let found = difference_on_a_way(alloc, &question, &mut stages, first, second, &mut draws)?;
        if found.is_some() {
            return Ok(found);
        }
        stages.restart(premises.len());
    }
    Ok(None)
}

/// The same on one way, from the stage of the premises.
fn difference_on_a_way(
    alloc: Global,
    question: &Question,
    stages: &mut Stages,
    first: Term,
    second: Term,
    draws: &mut Pcg32,
) -> Result<Option<Vec<u64>>, NoMemory>
    requires roots { question.now.roots ≡ first ∷ second ∷ [] }
    requires at { IsAt question.now stages.old.now }
    requires inputs { stages.old.inputs ≡ question.now.inputs }
    ensures inputs { stages.new.inputs ≡ stages.old.inputs }
    ensures path { OnOk result ((rest : Path) × (stages.new.now.path ≡ root question.now.premises ++ rest)) }
    ensures found { IfOk result (λ found. IfSome found (λ numbers.
        AreApart question.now.inputs (root question.now.premises) (tree question.now.nodes first.0) (tree question.now.nodes second.0) numbers.items)) }
{
    question.rules();
    go_on(question, stages, draws)?;
    if are_one(
        form_at(stages.forms(), first),
        form_at(stages.forms(), second),
    ) {
        return Ok(None);
    }
    match judge(alloc, stages, first, second)? {
        Ending::Different(numbers) => Ok(Some(numbers)),
        Ending::Equal(_) => Ok(None),
    }
}

/// Gives all places their forms. Where a place waits for a comparison, the side is drawn.
fn go_on(question: &Question, stages: &mut Stages, draws: &mut Pcg32) -> Result<(), NoMemory>
    requires at { IsAt question.now stages.old.now }
    requires inputs { stages.old.inputs ≡ question.now.inputs }
    ensures at { OnOk result (IsAt question.now stages.new.now) }
    ensures inputs { stages.new.inputs ≡ stages.old.inputs }
    ensures whole { OnOk result (length stages.new.now.forms ≡ length question.now.nodes) }
{
    question.rules();
    'way: loop {
        match advance(question, stages)? {
            Some(choice) => stages.take(choice, draws.next_word() % 2 == 0)?,
            None => return Ok(()),
        }
    }
}

/// Whether two forms are written alike.
fn are_one(f: Form, g: Form) -> bool {
    match (f, g) {
        (Form::Never, Form::Never) => true,
        (Form::Plus(i, c), Form::Plus(j, d)) => i == j && c == d,
        _ => false,
    }
}
