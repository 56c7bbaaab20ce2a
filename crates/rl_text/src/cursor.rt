//! The lines of a text, one after the other.
ghost use Rattle.std.specs.Prelude.{◌≡◌, ◌≤◌, ◌<◌, ◌^◌, ◌+◌, ℕ, option_map, List, [], ◌∷◌, true, false, length, MatchOption, IfOk};
ghost use Rattle.rl_text.specs.declared.token.Token.{Token};
ghost use Rattle.rl_text.specs.declared.token.Style.TheVariants as style;
ghost use Rattle.rl_text.specs.Tokens.{AreTokens, IsBad};
ghost use Rattle.rl_text.specs.Lines.{Line, lines};
ghost use Rattle.rl_text.specs.Lines as spec_lines;
ghost use Rattle.rl_text.specs.Words.{word, words};
ghost use Rattle.rl_text.specs.Cursor.{HasTokens, lines_left, words_left, line_first, GivesWord, GivesLine};

use crate::bytes::{comment_bytes, is_name_start};
use crate::cut::ends_line;
use crate::front::front;
use crate::token::Style;
use crate::words::Word;
use rl_time::NoMemory;
use std::alloc::Global;
use std::marker::Model;

/// What is left of a text of style Race, seen as the lines that are still to come.
#[derive(Debug, Drop)]
pub struct Lines<'a> {
    rest: &'a [u8],
    line: u32,
}

impl<'a> Model for Lines<'a> {
    ghost Value = { List Line };

    ghost view = { λ c. lines_left c.line c.rest.now };

    ghost invariant = { λ c. (c.line + length c.rest.now < 2 ^ 32) × HasTokens style.Race c.rest.now };
}

impl<'a> Lines<'a> {
    /// The lines of a text of at most 67,108,864 bytes that has tokens.
    pub fn new(text: &'a [u8]) -> Lines<'a>
        requires short { length text.now ≤ 67108864 }
        requires tokens { HasTokens style.Race text.now }
        ensures lines { (tokens : List Token) → AreTokens style.Race text.now tokens → result ≡ lines text.now tokens }
        ensures few { length result ≤ length text.now }
    {
        Lines {
            rest: text,
            line: 1,
        }
    }

    /// The number and the words of the next line that has some. It takes no memory. `None` after the last.
    pub fn next(&mut self) -> Option<(u32, LineWords<'a>)>
        ensures { GivesLine self.old result self.new }
    {
        let mut rest = self.rest;
        let mut number = self.line;
        while !rest.is_empty() {
            let after = after_line(rest);
            if has_word(rest) {
                self.rest = after;
                self.line = number + 1;
                return Some((number, LineWords { rest }));
            }
            rest = after;
            number += 1;
        }
        self.rest = rest;
        self.line = number;
        None
    }
}

/// The words of a line, seen as those that are still to come.
#[derive(Debug, Drop)]
pub struct LineWords<'a> {
    rest: &'a [u8],
}

impl<'a> Model for LineWords<'a> {
    ghost Value = { List spec_lines.Word };

    ghost view = { λ w. words_left w.rest.now };

    ghost invariant = { λ w. length w.rest.now < 2 ^ 32 };
}

impl<'a> LineWords<'a> {
    /// The next word of the line. `None` after the last.
    pub fn next(&mut self) -> Option<Word<'a>>
        ensures { GivesWord self.old (option_map word result) self.new }
    {
        let mut rest = self.rest;
        while let Some((kind, len)) = front(rest, Style::Race) {
            let (bytes, after) = rest.split_at(len);
            if let Some(kind) = kind {
                if ends_line(kind) {
                    self.rest = rest;
                    return None;
                }
                self.rest = after;
                return Some(Word { kind, bytes });
            }
            rest = after;
        }
        self.rest = rest;
        None
    }

    /// All the words of the line.
    pub fn collect(self, alloc: Global) -> Result<Vec<Word<'a>>, NoMemory>
        ensures { IfOk result (λ all. words all.items ≡ self.entry) }
    {
        let mut rest = self;
        let mut all = Vec::new(alloc);
        while let Some(word) = rest.next() {
            all.push(word)?;
        }
        Ok(all)
    }
}

/// Whether the line that a text begins with has a word.
fn has_word(text: &[u8]) -> bool
    requires few { length text.now < 2 ^ 32 }
    ensures some { result ≡ true → (first : spec_lines.Word) × (others : List spec_lines.Word) × (words_left text.now ≡ first ∷ others) }
    ensures none { result ≡ false → words_left text.now ≡ [] }
{
    match text {
        [b, ..] if is_name_start(*b) => true,
        _ => LineWords { rest: text }.next().is_some(),
    }
}

/// What follows the line that a text begins with.
fn after_line(text: &[u8]) -> &[u8]
    requires tokens { HasTokens style.Race text.now }
    requires few { length text.now < 2 ^ 32 }
    requires some { 0 < length text.now }
    ensures lines { (n : ℕ) → lines_left n text.now ≡ line_first n (words_left text.now) result.now }
    ensures tokens { HasTokens style.Race result.now }
    ensures shorter { length result.now < length text.now }
{
    let end = (comment_bytes(text) + 1).min(text.len());
    let (_, after) = text.split_at(end);
    after
}
