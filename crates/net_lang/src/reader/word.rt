ghost use Rattle.std.specs.Prelude.{◌≡◌};
ghost use Rattle.net_lang.specs.Reading.{key_of, keyword};
ghost use Rattle.rl_text.specs.Words.{word};

use rl_text::{Kind, Word};

/// What a word is in an expression.
#[derive(Clone, Copy, Debug, PartialEq, Eq)]
pub enum Key {
    Never,
    Min,
    Max,
    Lt,
    Inc,
    Plain,
    NoName,
}

/// What a name is in an expression.
#[tactic(auto, unfolding(crate::specs::Reading::keyword))]
pub fn keyword(text: &[u8]) -> Key
    ensures { result ≡ keyword text.now }
{
    if text == b"never".as_slice() {
        Key::Never
    } else if text == b"min".as_slice() {
        Key::Min
    } else if text == b"max".as_slice() {
        Key::Max
    } else if text == b"lt".as_slice() {
        Key::Lt
    } else if text == b"inc".as_slice() {
        Key::Inc
    } else {
        Key::Plain
    }
}

/// What a word is in an expression.
#[tactic(auto, unfolding(crate::specs::Reading::key_of))]
pub fn key_of(w: &Word<'_>) -> Key
    ensures { result ≡ key_of (word w.now) }
{
    match w.kind {
        Kind::Name => keyword(w.bytes),
        _ => Key::NoName,
    }
}
