//! A line that defines a let or an output.
ghost use Rattle.std.specs.Prelude.{◌≡◌, ◌≤◌, ◌<◌, ◌^◌, ℕ, List, true, None, OnOk, length};
ghost use Rattle.rl_text.specs.NameMap.{find};
ghost use Rattle.net_model.specs.Formula.{net};
ghost use Rattle.net_lang.specs.Forms.{Define, IsFormed};
ghost use Rattle.net_lang.specs.LineRules.{allows, first_rule, stage_after, with_equation};
ghost use Rattle.net_lang.specs.Known.{Measures};
ghost use Rattle.net_lang.specs.Draft.{net_of, known_as, IsDraft, Adds, Judges};
ghost use Rattle.net_lang.specs.Written.{expression};

use super::draft::Draft;
use super::judge::judge;
use super::measure::{measure, resolve};
use super::rules::{Rule, Stage, Target};
use super::scope::{Known, Measured, Place};
use super::written::Written;
use line_lang::LineError;
use net_model::Binding;
use rl_text::Name;
use rl_time::NoMemory;
use std::alloc::Global;

fn stage_after(target: Target) -> Stage
    ensures { result ≡ stage_after target }
{
    match target {
        Target::Let => Stage::Lets,
        Target::Output => Stage::Outputs,
    }
}

/// What is known of the name of a let, which is after that many lets and has this span, or of an output.
fn known_as(target: Target, at: usize, span: u32) -> Known
    ensures { result ≡ known_as target at span }
{
    match target {
        Target::Let => Known {
            place: Place::Let(at),
            span,
        },
        Target::Output => Known {
            place: Place::Output,
            span: 0,
        },
    }
}

/// Adds a binding to the lets or to the outputs.
fn push(
    lets: &mut Vec<Binding>,
    outputs: &mut Vec<Binding>,
    target: Target,
    binding: Binding,
) -> Result<(), NoMemory>
    ensures { OnOk result ((inputs : List (List ℕ)) → net inputs lets.new.items outputs.new.items ≡ with_equation target (net inputs lets.old.items outputs.old.items) binding) }
{
    match target {
        Target::Let => {
            lets.push(binding)?;
            Ok(())
        }
        Target::Output => {
            outputs.push(binding)?;
            Ok(())
        }
    }
}

/// Keeps a let or an output that breaks no rule.
fn keep<'a>(
    alloc: Global,
    draft: &mut Draft<'a>,
    target: Target,
    name: &'a [u8],
    body: &Written<'_>,
    measured: Measured,
) -> Result<(), NoMemory>
    requires draft { IsDraft draft.old }
    requires lets { length draft.old.lets.items < 2 ^ 31 }
    requires measured { Measures (find draft.old.scope) (expression body.now) measured }
    requires allowed { allows draft.old.stage (Define target name.now (expression body.now)) ≡ true }
    requires keeps { first_rule (net_of draft.old) (Define target name.now (expression body.now)) ≡ None }
    requires formed { IsFormed (Define target name.now (expression body.now)) }
    ensures { OnOk result (Adds draft.old (Define target name.now (expression body.now)) draft.new) }
{
    let value = resolve(alloc, body, &draft.scope)?;
    let binding = Binding::new(Name::new(alloc, name)?, value);
    let joins = draft.joins + measured.joins;
    let delays = draft.delays + measured.delays;
    let known = known_as(target, draft.lets.len(), measured.span);
    draft.scope.add(name, known)?;
    push(&mut draft.lets, &mut draft.outputs, target, binding)?;
    draft.stage = stage_after(target);
    draft.joins = joins;
    draft.delays = delays;
    Ok(())
}

/// Judges a let or an output, and keeps it where it breaks no rule.
pub fn read_define<'a>(
    alloc: Global,
    draft: &mut Draft<'a>,
    target: Target,
    name: &'a [u8],
    body: &Written<'_>,
) -> Result<(), LineError<Rule>>
    requires draft { IsDraft draft.old }
    requires lets { length draft.old.lets.items < 2 ^ 31 }
    requires allowed { allows draft.old.stage (Define target name.now (expression body.now)) ≡ true }
    requires formed { IsFormed (Define target name.now (expression body.now)) }
    ensures { Judges draft.old (Define target name.now (expression body.now)) draft.new result }
{
    let measured = measure(body, &draft.scope);
    if let Some(rule) = judge(draft, target, name, measured) {
        return Err(LineError::Broken(rule));
    }
    keep(alloc, draft, target, name, body, measured)?;
    Ok(())
}
