//! The rules of a line, by what is kept of the lines before.
ghost use Rattle.std.specs.Prelude.{◌≡◌, ◌≤◌};
ghost use Rattle.net_lang.specs.FormView.{form};
ghost use Rattle.net_lang.specs.LineRules.{allows, may_have, is_over, first_of};
ghost use Rattle.net_lang.specs.Draft.{IsDraft, rule_by};

use super::draft::Draft;
use super::form::Form;
use super::rules::{Rule, Stage, Target};
use super::scope::Measured;
use net_model::{MOST_DELAYS, MOST_JOINS, MOST_PORTS, MOST_SPAN, is_let_name, is_port_name};

/// Whether a place allows a line of this form.
pub fn allows(stage: Stage, line: &Form<'_>) -> bool
    ensures { result ≡ allows stage (form line.now) }
{
    match line {
        Form::Header => match stage {
            Stage::Start => true,
            _ => false,
        },
        Form::Inputs(_) => match stage {
            Stage::Header => true,
            Stage::Inputs => true,
            _ => false,
        },
        Form::Define(target, _, _) => match stage {
            Stage::Inputs => true,
            Stage::Lets => true,
            Stage::Outputs => match target {
                Target::Let => false,
                Target::Output => true,
            },
            _ => false,
        },
    }
}

/// The first of the rules that are broken, in the order in which they are judged.
fn first_of(bad: bool, doubled: bool, unknown: bool, many: bool, late: bool) -> Option<Rule>
    ensures { result ≡ first_of bad doubled unknown many late }
{
    if bad {
        Some(Rule::Name)
    } else if doubled {
        Some(Rule::Doubled)
    } else if unknown {
        Some(Rule::Unknown)
    } else if many {
        Some(Rule::Count)
    } else if late {
        Some(Rule::Span)
    } else {
        None
    }
}

fn is_over(inputs: usize, outputs: usize, joins: u32, delays: u32) -> bool
    ensures { result ≡ is_over inputs outputs joins delays }
{
    inputs > MOST_PORTS || outputs > MOST_PORTS || joins > MOST_JOINS || delays > MOST_DELAYS
}

fn may_have(target: Target, name: &[u8]) -> bool
    ensures { result ≡ may_have target name.now }
{
    match target {
        Target::Let => is_let_name(name),
        Target::Output => is_port_name(name),
    }
}

/// The first rule that a let or an output of this name breaks, whose expression was measured.
pub fn judge(draft: &Draft<'_>, target: Target, name: &[u8], body: Measured) -> Option<Rule>
    requires draft { IsDraft draft.now }
    requires few { (body.joins ≤ 20000) × (body.delays ≤ 20000) }
    ensures { result ≡ rule_by draft.now target name.now body }
{
    let bad = !may_have(target, name);
    let doubled = draft.scope.get(name).is_some();
    let outputs = match target {
        Target::Let => draft.outputs.len(),
        Target::Output => draft.outputs.len() + 1,
    };
    let many = is_over(
        draft.inputs.len(),
        outputs,
        draft.joins + body.joins,
        draft.delays + body.delays,
    );
    first_of(bad, doubled, !body.known, many, body.span > MOST_SPAN)
}
