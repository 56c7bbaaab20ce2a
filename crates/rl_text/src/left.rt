//! The words of a text of style Verilog, one after the other.
ghost use Rattle.std.specs.Prelude.{◌≡◌, ◌≤◌, ◌<◌, ◌^◌, ◌+◌, List, length, option_map};
ghost use Rattle.rl_text.specs.declared.token.Token.{Token};
ghost use Rattle.rl_text.specs.declared.token.Style.TheVariants as style;
ghost use Rattle.rl_text.specs.Tokens.{AreTokens};
ghost use Rattle.rl_text.specs.Lexemes as spec_lexemes;
ghost use Rattle.rl_text.specs.Lexemes.{lexemes};
ghost use Rattle.rl_text.specs.Words.{lexeme};
ghost use Rattle.rl_text.specs.Left.{lexemes_left, ahead, front_of, GivesLexeme};

use crate::bytes::newlines;
use crate::front::front;
use crate::token::Style;
use crate::words::Lexeme;
use std::marker::Model;

/// What is left of a text of style Verilog, seen as the words that are still to come. It takes no memory.
#[derive(Debug, Drop)]
pub struct WordsLeft<'a> {
    first: Option<Lexeme<'a>>,
    rest: &'a [u8],
    line: u32,
}

impl<'a> Model for WordsLeft<'a> {
    ghost Value = { List spec_lexemes.Lexeme };

    ghost view = { λ w. ahead w.first (lexemes_left w.line w.rest.now) };

    ghost invariant = { λ w. w.line + length w.rest.now < 2 ^ 32 };
}

impl<'a> WordsLeft<'a> {
    /// The words of a text of at most 67,108,864 bytes. Where it has no tokens, they are those before the first bad
    /// place.
    pub fn new(text: &'a [u8]) -> WordsLeft<'a>
        requires short { length text.now ≤ 67108864 }
        ensures words { (tokens : List Token) → AreTokens style.Verilog text.now tokens → result ≡ lexemes text.now tokens }
    {
        words_from(text, 1)
    }

    /// The next word, which stays. `None` after the last.
    pub fn first(&self) -> Option<Lexeme<'a>>
        ensures { option_map lexeme result ≡ front_of self.now }
    {
        self.first
    }

    /// Takes the next word. `None` after the last.
    pub fn next(&mut self) -> Option<Lexeme<'a>>
        ensures { GivesLexeme self.old (option_map lexeme result) self.new }
    {
        let first = self.first;
        if first.is_some() {
            *self = words_from(self.rest, self.line);
        }
        first
    }
}

/// The words of a text that begins on this line.
fn words_from<'a>(text: &'a [u8], number: u32) -> WordsLeft<'a>
    requires few { number + length text.now < 2 ^ 32 }
    ensures { result ≡ lexemes_left number text.now }
{
    let mut rest = text;
    let mut line = number;
    while let Some((kind, len)) = front(rest, Style::Verilog) {
        let (bytes, after) = rest.split_at(len);
        if let Some(kind) = kind {
            return WordsLeft {
                first: Some(Lexeme { kind, bytes, line }),
                rest: after,
                line,
            };
        }
        line += newlines(bytes) as u32;
        rest = after;
    }
    WordsLeft {
        first: None,
        rest,
        line,
    }
}
