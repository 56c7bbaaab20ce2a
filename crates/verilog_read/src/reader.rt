ghost use Rattle.std.specs.Prelude.{◌≤◌, length, IfOk, IfErr};
ghost use Rattle.verilog_text.specs.Spelling.{SpellsModule};
ghost use Rattle.verilog_read.specs.Outcome.{IsCause, AreWordsOf};

use crate::error::VerilogError;
use crate::judging::judge;
use rl_text::{Style, WordsLeft, bad_place, line_at};
use std::alloc::Global;
use verilog_text::Module;

/// The words of a text, none of which is taken yet.
fn words_of(text: &[u8]) -> Result<WordsLeft<'_>, VerilogError>
    requires size { length text.now ≤ 16777216 }
    ensures words { IfOk result (λ words. AreWordsOf text.now words) }
    ensures cause { IfErr result (IsCause text.now) }
{
    match bad_place(text, Style::Verilog) {
        Some(place) => Err(VerilogError::Syntax(line_at(text, place))),
        None => Ok(WordsLeft::new(text)),
    }
}

/// The module that a text of at most 16,777,216 bytes spells. An error names the first broken rule: that of the syntax
/// over the whole text, and then the first rule that the first statement to break one breaks.
pub fn read_module(alloc: Global, text: &[u8]) -> Result<Module, VerilogError>
    requires size { length text.now ≤ 16777216 }
    ensures spelled { IfOk result (λ m. SpellsModule text.now m) }
    ensures cause { IfErr result (IsCause text.now) }
{
    let mut words = words_of(text)?;
    let end = line_at(text, text.len() as u32);
    judge(alloc, &mut words, end)
}
