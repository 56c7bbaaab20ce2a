ghost use Rattle.std.specs.Prelude.{◌≡◌, ◌≤◌, ◌<◌, ◌++◌, ℕ, ℤ, pos, ◌-ℤ◌, ◌≤ℤ◌, List, Some, true, length, IfOk, OnOk};
ghost use Rattle.std.specs.Bool.{MatchBool};
ghost use Rattle.std.specs.List.{All};
ghost use Rattle.refutation.specs.declared.item.Fact.{Fact};
ghost use Rattle.refutation.specs.Cases.{Path};
ghost use Rattle.refutation.specs.Path.{MeetsAll};
ghost use Rattle.term_store.specs.Trees.{tree};
ghost use Rattle.tree_check.specs.Forms.{compared, form_at, AreEqualForms};
ghost use Rattle.tree_check.specs.Valid.{listed};
ghost use Rattle.case_split.specs.Decided.{AreRight};
ghost use Rattle.case_split.specs.Task.{Task, IsFact};
ghost use Rattle.case_split.specs.Leaves.{IsEnding, IsWhole, IsFormOver, AreFormsApart};

use crate::comparison::Comparison;
use crate::ending::Ending;
use crate::gathering::gathered;
use crate::stages::Stages;
use rl_time::NoMemory;
use std::alloc::Global;
use term_store::Term;
use tree_check::Form;

/// What a branch shows of two places, where every place has its form.
pub fn judge(
    alloc: Global,
    stages: &mut Stages,
    first: Term,
    second: Term,
) -> Result<Ending, NoMemory>
    requires few_inputs { stages.old.inputs ≤ 64 }
    requires room { length stages.old.now.path ≤ 65535 }
    requires whole { (task : Task) × IsWhole task stages.old first second }
    ensures ending { (task : Task) → IsWhole task stages.old first second →
        IfOk result (IsEnding task.inputs stages.old.now.path (tree task.nodes first.0) (tree task.nodes second.0)) }
    ensures inputs { stages.new.inputs ≡ stages.old.inputs }
    ensures later { OnOk result (stages.new.later ≡ stages.old.later) }
    ensures path { OnOk result ((rest : Path) × (stages.new.now.path ≡ stages.old.now.path ++ rest)) }
{
    let f = form_at(stages.forms(), first);
    let g = form_at(stages.forms(), second);
    if are_equal(stages, f, g)? {
        let inputs = stages.kept().len();
        Ok(Ending::Equal(gathered(alloc, inputs, stages.facts())?))
    } else {
        Ok(Ending::Different(Vec::from_slice(alloc, stages.kept())?))
    }
}

/// The form of a place, and never past the end.
pub fn form_at(forms: &[Form], place: Term) -> Form
    ensures { result ≡ form_at forms.now place.0 }
{
    match forms.get(place.0 as usize) {
        Some(form) => *form,
        None => Form::Never,
    }
}

/// Whether two forms are equal at all numbers that meet what is assumed. Where they aren't, they differ at all that meet what is
/// assumed afterwards.
fn are_equal(stages: &mut Stages, f: Form, g: Form) -> Result<bool, NoMemory>
    requires first { IsFormOver stages.old.inputs f }
    requires second { IsFormOver stages.old.inputs g }
    requires few_inputs { stages.old.inputs ≤ 64 }
    requires room { length stages.old.now.path ≤ 65535 }
    requires right { AreRight stages.old.now.path stages.old.now.facts }
    ensures inputs { stages.new.inputs ≡ stages.old.inputs }
    ensures later { OnOk result (stages.new.later ≡ stages.old.later) }
    ensures path { OnOk result ((rest : Path) × (stages.new.now.path ≡ stages.old.now.path ++ rest)) }
    ensures facts { OnOk result ((more : List Fact) × (stages.new.now.facts ≡ stages.old.now.facts ++ more) × AreRight stages.old.now.path more × All (IsFact stages.old.inputs) more) }
    ensures equal { IfOk result (λ equal. MatchBool equal
        (AreEqualForms (listed stages.new.now.facts) f g)
        ((x : ℕ → ℤ) → MeetsAll x stages.new.now.path → AreFormsApart x f g)) }
{
    match (f, g) {
        (Form::Never, Form::Never) => Ok(true),
        (Form::Plus(i, c), Form::Plus(j, d)) => {
            if !is_so(stages, comparison(i, c, j, d))? {
                return Ok(false);
            }
            is_so(stages, comparison(j, d, i, c))
        }
        _ => Ok(false),
    }
}

fn comparison(from: u32, from_cycles: u32, to: u32, to_cycles: u32) -> Comparison
    ensures { result ≡ record { from = from; from_cycles = from_cycles; to = to; to_cycles = to_cycles } }
{
    Comparison {
        from,
        from_cycles,
        to,
        to_cycles,
    }
}

/// Whether the comparison is so at all numbers that meet what is assumed. Where it isn't, it is so at none that meet what is assumed
/// afterwards.
fn is_so(stages: &mut Stages, comparison: Comparison) -> Result<bool, NoMemory>
    requires from { comparison.from < stages.old.inputs }
    requires to { comparison.to < stages.old.inputs }
    requires from_cycles { comparison.from_cycles ≤ 1000000 }
    requires to_cycles { comparison.to_cycles ≤ 1000000 }
    requires few_inputs { stages.old.inputs ≤ 64 }
    requires room { length stages.old.now.path ≤ 65535 }
    requires right { AreRight stages.old.now.path stages.old.now.facts }
    ensures inputs { stages.new.inputs ≡ stages.old.inputs }
    ensures later { OnOk result (stages.new.later ≡ stages.old.later) }
    ensures path { OnOk result ((rest : Path) × (stages.new.now.path ≡ stages.old.now.path ++ rest)) }
    ensures facts { OnOk result ((more : List Fact) × (stages.new.now.facts ≡ stages.old.now.facts ++ more) × AreRight stages.old.now.path more × All (IsFact stages.old.inputs) more) }
    ensures yes { IfOk result (λ so. MatchBool so
        ((stages.new.now.path ≡ stages.old.now.path) × (compared (listed stages.new.now.facts) comparison.from comparison.from_cycles comparison.to comparison.to_cycles ≡ Some true))
        ((x : ℕ → ℤ) → MeetsAll x stages.new.now.path → (x comparison.to -ℤ x comparison.from) ≤ℤ ((pos comparison.from_cycles -ℤ pos comparison.to_cycles) -ℤ pos 1))) }
{
    if let Some(answer) = stages.answer(comparison)? {
        return Ok(answer);
    }
    let width = i64::from(comparison.to_cycles) - i64::from(comparison.from_cycles);
    stages.assume(comparison.to, comparison.from, -width - 1)?;
    Ok(false)
}
