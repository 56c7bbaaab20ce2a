//! A line of inputs.
ghost use Rattle.std.specs.Prelude.{◌≡◌, ◌≢◌, [], true, map, IfOk};
ghost use Rattle.net_lang.specs.Forms.{Inputs};
ghost use Rattle.net_lang.specs.LineRules.{allows};
ghost use Rattle.net_lang.specs.Draft.{IsDraft, KnowsInputs, Declares, Judges};

use super::draft::Draft;
use super::rules::{Rule, Stage};
use super::scope::{Known, Place, Scope};
use line_lang::LineError;
use net_model::{MOST_PORTS, are_port_names};
use rl_text::Name;
use rl_time::NoMemory;
use std::alloc::Global;

/// Adds the names to the inputs, up to the first that is declared already; whether there is none.
fn declare<'a>(
    alloc: Global,
    scope: &mut Scope<'a>,
    inputs: &mut Vec<Name>,
    names: &[&'a [u8]],
) -> Result<bool, NoMemory>
    requires { KnowsInputs scope.old inputs.old.items }
    ensures { IfOk result (Declares inputs.old.items (map (λ n. n.now) names.now) scope.new inputs.new.items) }
{
    for name in names {
        let place = inputs.len();
        if scope.get(name).is_some() {
            return Ok(false);
        }
        let known = Known {
            place: Place::Input(place),
            span: 0,
        };
        let input = Name::new(alloc, name)?;
        scope.add(name, known)?;
        inputs.push(input)?;
    }
    Ok(true)
}

/// Judges the names that a line declares as inputs, and keeps them where they break no rule.
pub fn read_inputs<'a>(
    alloc: Global,
    draft: &mut Draft<'a>,
    names: &[&'a [u8]],
) -> Result<(), LineError<Rule>>
    requires draft { IsDraft draft.old }
    requires allowed { allows draft.old.stage (Inputs (map (λ n. n.now) names.now)) ≡ true }
    requires some { map (λ n. n.now) names.now ≢ [] }
    ensures { Judges draft.old (Inputs (map (λ n. n.now) names.now)) draft.new result }
{
    let good = are_port_names(names);
    if !good {
        return Err(LineError::Broken(Rule::Name));
    }
    let fresh = declare(alloc, &mut draft.scope, &mut draft.inputs, names)?;
    if !fresh {
        return Err(LineError::Broken(Rule::Doubled));
    }
    let count = draft.inputs.len();
    if count > MOST_PORTS {
        return Err(LineError::Broken(Rule::Count));
    }
    draft.stage = Stage::Inputs;
    Ok(())
}
