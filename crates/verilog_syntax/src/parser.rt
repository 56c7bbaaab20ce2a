//! The statements that the words of a text are, one after another.
ghost use Rattle.std.specs.Prelude.{◌≡◌, IfOk, IfErr};
ghost use Rattle.verilog_text.specs.Statements.{Opens, allows, stage_after, first_line};
ghost use Rattle.verilog_text.specs.Reading.{statement_at};
ghost use Rattle.verilog_syntax.specs.View.{statement};
ghost use Rattle.verilog_syntax.specs.View as view;
ghost use Rattle.verilog_syntax.specs.Reads.{stage, Gives, is_finished, LacksAt};

use crate::error::{ReadError, SyntaxError};
use crate::forms::form;
use crate::stage::Stage;
use crate::statement::{Form, Statement};
use rl_text::WordsLeft;
use std::alloc::Global;
use verilog_text::spelling_laws::reading_is_opening;

/// Whether the statement may come at this stage.
fn allows(current: Stage, next: &Form<'_>) -> bool
    ensures { result ≡ allows (stage current) (view.form next.now) }
{
    match current {
        Stage::Start => match next {
            Form::Header(_, _) => true,
            _ => false,
        },
        Stage::Declarations => match next {
            Form::Header(_, _) => false,
            _ => true,
        },
        Stage::Actions => match next {
            Form::Assign(_, _) => true,
            Form::Always(_) => true,
            Form::End => true,
            _ => false,
        },
        Stage::Finished => false,
    }
}

impl Stage {
    /// What may come after the statement.
    pub fn after(last: &Form<'_>) -> Stage
        ensures { stage result ≡ stage_after (view.form last.now) }
    {
        match last {
            Form::Header(_, _) => Stage::Declarations,
            Form::Input(_) => Stage::Declarations,
            Form::Output(_) => Stage::Declarations,
            Form::Wire(_) => Stage::Declarations,
            Form::Reg(_, _) => Stage::Declarations,
            Form::Assign(_, _) => Stage::Actions,
            Form::Always(_) => Stage::Actions,
            Form::End => Stage::Finished,
        }
    }

    /// Whether the text is at its end.
    pub fn is_finished(self) -> bool
        ensures { result ≡ is_finished (stage self) }
    {
        matches!(self, Stage::Finished)
    }
}

/// Takes the statement at the front, one that the stage allows.
#[tactic(auto, unfolding(verilog_text::specs::Reading::statement_at))]
fn read<'a>(
    alloc: Global,
    words: &mut WordsLeft<'a>,
    current: Stage,
) -> Result<Statement<'a>, ReadError>
    ensures { Gives (λ x. (statement x, words.new)) result (statement_at (stage current) words.old) }
{
    match words.first() {
        None => Err(ReadError::Syntax),
        Some(w) => {
            let next = form(alloc, words)?;
            if allows(current, &next) {
                Ok(Statement {
                    form: next,
                    line: w.line,
                })
            } else {
                Err(ReadError::Syntax)
            }
        }
    }
}

fn first_line(end: u32, words: &WordsLeft<'_>) -> u32
    ensures { result ≡ first_line end words.now }
{
    match words.first() {
        None => end,
        Some(w) => w.line,
    }
}

/// Takes the statement that opens the words, one that may come at this stage. `At` holds the line at which none opens
/// them; `end` is the line of the text's end.
pub fn next_statement<'a>(
    alloc: Global,
    words: &mut WordsLeft<'a>,
    current: Stage,
    end: u32,
) -> Result<Statement<'a>, SyntaxError>
    ensures opens { IfOk result (λ x. Opens (stage current) words.old (statement x) words.new) }
    ensures lacks { IfErr result (LacksAt (stage current) words.old end) }
{
    reading_is_opening();
    let line = first_line(end, words);
    match read(alloc, words, current) {
        Ok(found) => Ok(found),
        Err(ReadError::Syntax) => Err(SyntaxError::At(line)),
        Err(ReadError::NoMemory) => Err(SyntaxError::NoMemory),
    }
}
