ghost use Rattle.std.specs.Prelude.{◌≡◌, ◌<◌, ◌≤◌, ◌+◌, length, IfOk, OnOk, MatchOption};
ghost use Rattle.case_split.specs.Walk.{joins_left, IsAt, IsWaiting};

use crate::comparison::{Choice, Step};
use crate::question::Question;
use crate::stages::Stages;
use rl_time::NoMemory;

/// Gives the next places their forms, up to one that waits for a comparison which the path doesn't decide: what that waits for, or
/// `None` where every place has its form.
pub fn advance(question: &Question, stages: &mut Stages) -> Result<Option<Choice>, NoMemory>
    requires at { IsAt question.now stages.old.now }
    requires inputs { stages.old.inputs ≡ question.now.inputs }
    ensures at { OnOk result (IsAt question.now stages.new.now) }
    ensures inputs { stages.new.inputs ≡ stages.old.inputs }
    ensures later { stages.new.later ≡ stages.old.later }
    ensures path { OnOk result (stages.new.now.path ≡ stages.old.now.path) }
    ensures fewer { OnOk result (joins_left question.now stages.new.now ≤ joins_left question.now stages.old.now) }
    ensures next { IfOk result (λ next. MatchOption next (length stages.new.now.forms ≡ length question.now.nodes) (λ choice. IsWaiting question.now stages.new.now choice)) }
{
    for _place in stages.forms().len()..question.len() {
        if let Some(choice) = settle_next(question, stages)? {
            return Ok(Some(choice));
        }
    }
    Ok(None)
}

/// Gives the next place its form, unless it waits for a comparison that the path doesn't decide.
fn settle_next(question: &Question, stages: &mut Stages) -> Result<Option<Choice>, NoMemory>
    requires at { IsAt question.now stages.old.now }
    requires inputs { stages.old.inputs ≡ question.now.inputs }
    requires place { length stages.old.now.forms < length question.now.nodes }
    ensures at { OnOk result (IsAt question.now stages.new.now) }
    ensures inputs { stages.new.inputs ≡ stages.old.inputs }
    ensures later { stages.new.later ≡ stages.old.later }
    ensures path { OnOk result (stages.new.now.path ≡ stages.old.now.path) }
    ensures fewer { OnOk result (joins_left question.now stages.new.now ≤ joins_left question.now stages.old.now) }
    ensures next { IfOk result (λ next. MatchOption next (length stages.new.now.forms ≡ length stages.old.now.forms + 1) (λ choice. IsWaiting question.now stages.new.now choice)) }
{
    question.rules();
    match question.step(stages.forms()) {
        Step::Settled(form) => stages.settle(form)?,
        Step::Chosen(choice) => match stages.answer(choice.comparison)? {
            Some(true) => stages.settle(choice.yes)?,
            Some(false) => stages.settle(choice.no)?,
            None => return Ok(Some(choice)),
        },
    }
    Ok(None)
}
