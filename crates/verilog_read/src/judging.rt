//! The module that words are.
ghost use Rattle.std.specs.Prelude.{◌≡◌, None, IfOk, IfErr};
ghost use Rattle.std.specs.List.{list_all};
ghost use Rattle.verilog_text.specs.Grammar.{End};
ghost use Rattle.verilog_syntax.specs.View.{form, statement};
ghost use Rattle.verilog_read.specs.Draft.{IsEmpty, IsOfSome, IsReady, Judges, JudgesNext, IsWhole, is_unfinished_by};
ghost use Rattle.verilog_read.specs.Outcome.{error_of, Names, Fails, AreWordsOfModule};

use crate::actions::{read_always, read_assign};
use crate::declarations::{read_header, read_input, read_output, read_reg, read_wire};
use crate::draft::{Draft, Fault, StepError};
use crate::error::VerilogError;
use crate::scope::Scope;
use rl_text::WordsLeft;
use rl_time::NoMemory;
use std::alloc::Global;
use verilog_laws::{statements_are_valid, statements_stay_sound};
use verilog_syntax::{Form, Stage, Statement, SyntaxError, next_statement};
use verilog_text::{Module, Rule};

impl From<SyntaxError> for VerilogError {
    ghost use Rattle.std.specs.Prelude.{◌≡◌};
    ghost use Rattle.verilog_read.specs.Outcome.{of_syntax};

    ghost from_gives = { λ e x. x ≡ of_syntax e };

    fn from(e: SyntaxError) -> VerilogError {
        match e {
            SyntaxError::At(line) => VerilogError::Syntax(line),
            SyntaxError::NoMemory => VerilogError::NoMemory,
        }
    }
}

fn are_set(flags: &[bool]) -> bool
    ensures { result ≡ list_all (λ b. b) flags.now }
{
    flags.iter().all(|flag| *flag)
}

fn is_unfinished(draft: &Draft<'_>) -> bool
    ensures { result ≡ is_unfinished_by draft.now }
{
    draft.to_declare.len() > 0
        || !are_set(&draft.given_wires)
        || !are_set(&draft.given_outputs)
        || !are_set(&draft.updated)
}

fn read_end(draft: &mut Draft<'_>) -> Result<(), StepError>
    requires { IsOfSome draft.old }
    ensures { Judges draft.old End draft.new result }
{
    if is_unfinished(draft) {
        return Err(StepError::Broken(Rule::Order));
    }
    Ok(())
}

/// Judges a statement after those before it, and keeps it where it breaks no rule.
fn read_form<'a>(alloc: Global, draft: &mut Draft<'a>, statement: Form<'a>) -> Result<(), StepError>
    requires { IsReady draft.old (form statement) }
    ensures { Judges draft.old (form statement.entry) draft.new result }
{
    match statement {
        Form::Header(name, ports) => read_header(draft, name, ports),
        Form::Input(name) => read_input(alloc, draft, name),
        Form::Output(name) => read_output(alloc, draft, name),
        Form::Wire(name) => read_wire(alloc, draft, name),
        Form::Reg(last, name) => read_reg(alloc, draft, last, name),
        Form::Assign(name, written) => read_assign(alloc, draft, name, written),
        Form::Always(always) => read_always(alloc, draft, Box::into_inner(always)),
        Form::End => read_end(draft),
    }
}

/// Judges one more statement where those before it break no rule. The fault is the first, where there is one.
fn judge_next<'a>(
    alloc: Global,
    draft: &mut Draft<'a>,
    broken: Option<Fault>,
    next: Statement<'a>,
) -> Result<Option<Fault>, NoMemory>
    requires ready { broken ≡ None → IsReady draft.old (form next.form) }
    ensures { JudgesNext draft.old broken (statement next.entry) draft.new result }
{
    match broken {
        Some(fault) => Ok(Some(fault)),
        None => {
            let line = next.line;
            match read_form(alloc, draft, next.form) {
                Ok(()) => Ok(None),
                Err(StepError::Broken(rule)) => Ok(Some(Fault { rule, line })),
                Err(StepError::NoMemory) => Err(NoMemory),
            }
        }
    }
}

fn error_of(rule: Rule, line: u32) -> VerilogError
    ensures { result ≡ error_of rule line }
{
    match rule {
        Rule::Syntax => VerilogError::Syntax(line),
        Rule::Name => VerilogError::Name(line),
        Rule::Order => VerilogError::Order(line),
        Rule::Width => VerilogError::Width(line),
        Rule::Limit => VerilogError::Limit(line),
    }
}

fn no_statements<'a>(alloc: Global) -> Draft<'a>
    ensures { IsEmpty result }
{
    Draft {
        to_declare: Vec::new(alloc),
        scope: Scope::new(alloc),
        inputs: Vec::new(alloc),
        outputs: Vec::new(alloc),
        wires: Vec::new(alloc),
        regs: Vec::new(alloc),
        assigns: Vec::new(alloc),
        given_wires: Vec::new(alloc),
        given_outputs: Vec::new(alloc),
        updated: Vec::new(alloc),
        bits: 0,
    }
}

/// What all statements together are, or what is wrong first: the syntax of all words, and then the rules, statement by
/// statement. Each statement is let go once it is judged. `end` is the line of the text's end.
fn read_all<'a>(
    alloc: Global,
    words: &mut WordsLeft<'a>,
    end: u32,
) -> Result<Draft<'a>, VerilogError>
    ensures { IsWhole words.old end result }
{
    statements_stay_sound();
    let mut draft = no_statements(alloc);
    let first = next_statement(alloc, words, Stage::Start, end)?;
    let mut current = Stage::after(&first.form);
    let mut broken = judge_next(alloc, &mut draft, None, first)?;
    while !current.is_finished() {
        let next = next_statement(alloc, words, current, end)?;
        current = Stage::after(&next.form);
        broken = judge_next(alloc, &mut draft, broken, next)?;
    }
    match broken {
        Some(fault) => Err(error_of(fault.rule, fault.line)),
        None => Ok(draft),
    }
}

/// The module that these words are, or what is wrong with them first. `end` is the line of the text's end.
pub fn judge(alloc: Global, words: &mut WordsLeft<'_>, end: u32) -> Result<Module, VerilogError>
    ensures module { IfOk result (AreWordsOfModule words.old) }
    ensures cause { IfErr result (λ e. Names e (Fails words.old end)) }
{
    statements_are_valid();
    let draft = match read_all(alloc, words, end) {
        Ok(draft) => draft,
        Err(error) => return Err(error),
    };
    let Draft {
        inputs,
        outputs,
        wires,
        regs,
        assigns,
        ..
    } = draft;
    Ok(Module::new(inputs, outputs, wires, regs, assigns))
}
