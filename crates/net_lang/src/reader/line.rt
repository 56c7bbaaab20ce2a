//! A line after the lines before.
ghost use Rattle.std.specs.Prelude.{◌≡◌, ◌≤◌, ◌<◌, ◌^◌, true, length};
ghost use Rattle.line_lang.specs.Language.{IsRead};
ghost use Rattle.line_lang.specs.Judging.{IsEnded};
ghost use Rattle.net_lang.specs.declared.reader.rules.Rule.TheVariants as rule;
ghost use Rattle.net_lang.specs.Forms.{Header, IsFormed};
ghost use Rattle.net_lang.specs.Forms as forms;
ghost use Rattle.net_lang.specs.FormReading.{form_at};
ghost use Rattle.net_lang.specs.FormView.{form};
ghost use Rattle.net_lang.specs.LineRules.{SoFar, nothing_yet, allows};
ghost use Rattle.net_lang.specs.Spelling.{networks};
ghost use Rattle.net_lang.specs.Draft.{so_far, IsDraft, Judges};

use super::define::read_define;
use super::draft::Draft;
use super::form::{Form, form_at};
use super::inputs::read_inputs;
use super::judge::allows;
use super::rules::{Rule, Stage};
use super::scope::Scope;
use line_lang::{LineError, LineReader};
use net_model::Network;
use rl_text::LineWords;
use std::alloc::Global;

fn read_header(draft: &mut Draft<'_>) -> Result<(), LineError<Rule>>
    requires draft { IsDraft draft.old }
    requires allowed { allows draft.old.stage Header ≡ true }
    ensures { Judges draft.old Header draft.new result }
{
    draft.stage = Stage::Header;
    Ok(())
}

/// Judges a form that its place allows, and keeps it where it breaks no rule.
fn read_form<'a>(
    alloc: Global,
    draft: &mut Draft<'a>,
    line: &Form<'a>,
) -> Result<(), LineError<Rule>>
    requires draft { IsDraft draft.old }
    requires lets { length draft.old.lets.items < 2 ^ 31 }
    requires allowed { allows draft.old.stage (form line.now) ≡ true }
    requires formed { IsFormed (form line.now) }
    ensures { Judges draft.old (form line.now) draft.new result }
{
    match line {
        Form::Header => read_header(draft),
        Form::Inputs(names) => read_inputs(alloc, draft, names),
        Form::Define(target, name, body) => read_define(alloc, draft, *target, *name, body),
    }
}

impl<'a> LineReader<'a> for Draft<'a> {
    type Line = Form<'a>;

    type Rule = Rule;

    type Value = Network;

    ghost SoFar = { SoFar };

    ghost Form = { forms.Form };

    ghost language = { networks };

    ghost reading = { form_at };

    ghost form = { form };

    ghost so_far = { so_far };

    ghost is_sound = { IsDraft };

    ghost size = { λ d. length d.lets.items };

    fn grammar_is_read()
        ensures { IsRead networks form_at }
    {}

    fn syntax() -> Rule
        ensures { result ≡ rule.Syntax }
    {
        Rule::Syntax
    }

    fn form_at(alloc: Global, line: LineWords<'a>) -> Result<Form<'a>, LineError<Rule>> {
        form_at(alloc, line)
    }

    fn allows(&self, line: &Form<'a>) -> bool {
        allows(self.stage, line)
    }

    fn judge(&mut self, alloc: Global, line: &Form<'a>) -> Result<(), LineError<Rule>> {
        read_form(alloc, self, line)
    }

    fn whole(self) -> Option<Network>
        requires { IsDraft self }
        ensures { IsEnded networks (so_far self.entry) result }
    {
        let Draft {
            stage,
            inputs,
            lets,
            outputs,
            ..
        } = self;
        match stage {
            Stage::Outputs => Some(Network::new(inputs, lets, outputs)),
            _ => None,
        }
    }
}

/// A draft of no lines.
pub fn nothing_yet<'a>(alloc: Global) -> Draft<'a>
    ensures empty { so_far result ≡ nothing_yet }
    ensures draft { IsDraft result }
    ensures small { length result.lets.items ≡ 0 }
{
    Draft {
        stage: Stage::Start,
        scope: Scope::new(alloc),
        inputs: Vec::new(alloc),
        lets: Vec::new(alloc),
        outputs: Vec::new(alloc),
        joins: 0,
        delays: 0,
    }
}
