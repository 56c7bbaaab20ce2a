//! One word at the front of others.
ghost use Rattle.std.specs.Prelude.{◌≡◌, true, false, None, Some};
ghost use Rattle.verilog_text.specs.Grammar.{is_plain};
ghost use Rattle.verilog_text.specs.Reading.{is_name, is_number, is_bits, is_symbol, begins, after, after_sign, after_name, name_at, bytes_at, number_at};
ghost use Rattle.verilog_syntax.specs.Reads.{Gives};

use crate::error::ReadError;
use rl_text::{Kind, WordsLeft};

/// Whether this sign is at the front.
#[tactic(auto, unfolding(verilog_text::specs::Reading::begins))]
pub fn starts(words: &WordsLeft<'_>, sign: &[u8]) -> bool
    ensures { result ≡ begins is_symbol sign.now words.now }
{
    match words.first() {
        None => false,
        Some(w) => matches!(w.kind, Kind::Symbol) && w.bytes == sign,
    }
}

/// Takes this sign, if it is at the front.
#[tactic(auto, unfolding(verilog_text::specs::Reading::after, verilog_text::specs::Reading::begins))]
pub fn take_sign(words: &mut WordsLeft<'_>, sign: &[u8]) -> bool
    ensures taken { result ≡ true → after is_symbol sign.now words.old ≡ Some words.new }
    ensures kept { result ≡ false → (after is_symbol sign.now words.old ≡ None) × (words.new ≡ words.old) }
{
    let found = starts(words, sign);
    if found {
        let _ = words.next();
    }
    found
}

/// Takes this sign; `Syntax` if it is not at the front.
#[tactic(auto, unfolding(verilog_text::specs::Reading::after, verilog_text::specs::Reading::begins))]
pub fn pass_sign(words: &mut WordsLeft<'_>, sign: &[u8]) -> Result<(), ReadError>
    ensures { Gives (λ _. words.new) result (after_sign sign.now words.old) }
{
    match words.next() {
        Some(w) if matches!(w.kind, Kind::Symbol) && w.bytes == sign => Ok(()),
        _ => Err(ReadError::Syntax),
    }
}

/// Takes this name; `Syntax` if it is not at the front.
#[tactic(auto, unfolding(verilog_text::specs::Reading::after, verilog_text::specs::Reading::begins))]
pub fn pass_name(words: &mut WordsLeft<'_>, text: &[u8]) -> Result<(), ReadError>
    ensures { Gives (λ _. words.new) result (after_name text.now words.old) }
{
    match words.next() {
        Some(w) if matches!(w.kind, Kind::Name) && w.bytes == text => Ok(()),
        _ => Err(ReadError::Syntax),
    }
}

/// Takes this number; `Syntax` if it is not at the front.
#[tactic(auto, unfolding(verilog_text::specs::Reading::after, verilog_text::specs::Reading::begins))]
pub fn pass_number(words: &mut WordsLeft<'_>, text: &[u8]) -> Result<(), ReadError>
    ensures { Gives (λ _. words.new) result (after is_number text.now words.old) }
{
    match words.next() {
        Some(w) if matches!(w.kind, Kind::Number) && w.bytes == text => Ok(()),
        _ => Err(ReadError::Syntax),
    }
}

/// Takes the name at the front; `Syntax` if there is none.
#[tactic(auto, unfolding(verilog_text::specs::Reading::bytes_at))]
pub fn name<'a>(words: &mut WordsLeft<'a>) -> Result<&'a [u8], ReadError>
    ensures { Gives (λ x. (x.now, words.new)) result (name_at words.old) }
{
    match words.next() {
        Some(w) if matches!(w.kind, Kind::Name) => Ok(w.bytes),
        _ => Err(ReadError::Syntax),
    }
}

/// Takes the bits at the front, such as `1'b0`; `Syntax` if there are none.
#[tactic(auto, unfolding(verilog_text::specs::Reading::bytes_at))]
pub fn bits<'a>(words: &mut WordsLeft<'a>) -> Result<&'a [u8], ReadError>
    ensures { Gives (λ x. (x.now, words.new)) result (bytes_at is_bits words.old) }
{
    match words.next() {
        Some(w) if matches!(w.kind, Kind::Bits) => Ok(w.bytes),
        _ => Err(ReadError::Syntax),
    }
}

/// No leading zero, but for 0 itself.
fn is_plain(digits: &[u8]) -> bool
    ensures { result ≡ is_plain digits.now }
{
    match digits {
        [] => false,
        [_] => true,
        [first, _, ..] => *first != b'0',
    }
}

/// Takes the number at the front, one with no leading zero; `Syntax` if there is none.
#[tactic(auto, unfolding(verilog_text::specs::Reading::number_at))]
pub fn number<'a>(words: &mut WordsLeft<'a>) -> Result<&'a [u8], ReadError>
    ensures { Gives (λ x. (x.now, words.new)) result (number_at words.old) }
{
    match words.next() {
        Some(w) if matches!(w.kind, Kind::Number) && is_plain(w.bytes) => Ok(w.bytes),
        _ => Err(ReadError::Syntax),
    }
}
