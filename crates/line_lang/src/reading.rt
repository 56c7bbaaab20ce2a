ghost use Rattle.std.specs.Prelude.{◌≡◌, ◌≤◌, ◌<◌, ◌+◌, ℕ, List, Option, length, true, OnOk};
ghost use Rattle.rl_text.specs.Lines as lines;
ghost use Rattle.line_lang.specs.Language.{Language, IsRead};
ghost use Rattle.line_lang.specs.Judging.{Gives, Judges, IsJudged, IsEnded, Answers};

use crate::error::{Failure, LineError};
use rl_text::{LineWords, Lines, first_bad, line_at};
use std::alloc::Global;

/// A reader of a language of lines, and what it keeps of the lines before.
pub trait LineReader<'a>: Drop {
    type Line: Drop;

    type Rule;

    type Value;

    ghost SoFar: { Type 0 };

    ghost Form: { Type 0 };

    ghost language: { Language SoFar Form Self.Rule Self.Value };

    ghost reading: { List lines.Word → Option Form };

    ghost form: { Self.Line → Form };

    ghost so_far: { Self → SoFar };

    ghost is_sound: { Self → Type 0 };

    ghost size: { Self → ℕ } = { λ _. 0 };

    /// Each line has at most one form, which `reading` gives.
    fn grammar_is_read()
        ensures { IsRead language reading };

    /// The rule that a line breaks that has no form that its place allows.
    fn syntax() -> Self::Rule
        ensures { result ≡ language.syntax };

    /// The form of a line. It answers bad syntax where there is none.
    fn form_at(alloc: Global, line: LineWords<'a>) -> Result<Self::Line, LineError<Self::Rule>>
        ensures { Gives form language.syntax result (reading line.entry) };

    /// Whether a form may follow the lines before.
    fn allows(&self, line: &Self::Line) -> bool
        ensures { result ≡ language.allows (so_far self.now) (form line.now) };

    /// Judges a line of this form, and keeps it where it breaks no rule.
    fn judge(&mut self, alloc: Global, line: &Self::Line) -> Result<(), LineError<Self::Rule>>
        requires sound { is_sound self.old }
        requires allowed { language.allows (so_far self.old) (form line.now) ≡ true }
        requires formed { (ws : List lines.Word) × language.IsLine ws (form line.now) }
        requires few { size self.old < 67108864 }
        ensures judged { Judges language (so_far self.old) (form line.now) (so_far self.new) result }
        ensures sound { OnOk result (is_sound self.new) }
        ensures grows { OnOk result (size self.new ≤ size self.old + 1) };

    /// What all lines together are, where a text may end after them.
    fn whole(self) -> Option<Self::Value>
        requires { is_sound self }
        ensures { IsEnded language (so_far self) result };
}

/// Judges a line after those before, and keeps it where it breaks no rule.
fn read_line<'a, D: LineReader<'a>>(
    alloc: Global,
    draft: &mut D,
    line: LineWords<'a>,
) -> Result<(), LineError<D::Rule>>
    requires sound { D.is_sound draft.old }
    requires few { D.size draft.old < 67108864 }
    ensures judged { IsJudged D.language (D.so_far draft.old) line.entry (D.so_far draft.new) result }
    ensures sound { OnOk result (D.is_sound draft.new) }
    ensures grows { OnOk result (D.size draft.new ≤ D.size draft.old + 1) }
{
    D::grammar_is_read();
    let form = match D::form_at(alloc, line) {
        Ok(form) => form,
        Err(error) => return Err(error),
    };
    if !draft.allows(&form) {
        return Err(LineError::Broken(D::syntax()));
    }
    draft.judge(alloc, &form)
}

/// What a text of at most 67,108,864 bytes spells, begun with a draft of no lines. A failure names the first rule that
/// the first line to break one breaks; a byte that no token, space or comment begins with is bad syntax, before every rule.
pub fn read<'a, D: LineReader<'a>>(
    alloc: Global,
    draft: D,
    text: &'a [u8],
) -> Result<D::Value, Failure<D::Rule>>
    requires short { length text.now ≤ 67108864 }
    requires sound { D.is_sound draft }
    requires empty { D.so_far draft ≡ D.language.start }
    requires small { D.size draft ≡ 0 }
    ensures { Answers D.language text.now result }
{
    if let Some(place) = first_bad(text) {
        return Err(Failure::Broken(D::syntax(), line_at(text, place)));
    }
    let mut draft = draft;
    let mut lines = Lines::new(text);
    while let Some((number, line)) = lines.next() {
        match read_line(alloc, &mut draft, line) {
            Ok(()) => {}
            Err(LineError::Broken(rule)) => return Err(Failure::Broken(rule, number)),
            Err(LineError::NoMemory) => return Err(Failure::NoMemory),
        }
    }
    match draft.whole() {
        Some(value) => Ok(value),
        None => Err(Failure::Broken(D::syntax(), line_at(text, text.len() as u32))),
    }
}
