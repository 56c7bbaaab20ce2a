//! The expression at the front of some words.
ghost use Rattle.std.specs.Prelude.{◌≡◌};
ghost use Rattle.rl_text.specs.Numbers.{is_plain};
ghost use Rattle.net_lang.specs.Reading.{after_sign, constant, pair, delay, expr_at};
ghost use Rattle.net_lang.specs.Written.{expression, Takes, TakesSign, TakesTwo};

use super::rules::Rule;
use super::word::{Key, key_of};
use super::written::Written;
use line_lang::LineError;
use rl_text::{Kind, LineWords};
use std::alloc::Global;

/// Takes this sign; bad syntax where another word is first.
#[tactic(auto, unfolding(crate::specs::Reading::after_sign))]
pub fn take_sign(words: &mut LineWords<'_>, text: &[u8]) -> Result<(), LineError<Rule>>
    ensures { TakesSign result words.new (after_sign text.now words.old) }
{
    let Some(w) = words.next() else {
        return Err(LineError::Broken(Rule::Syntax));
    };
    if matches!(w.kind, Kind::Symbol) && w.bytes == text {
        Ok(())
    } else {
        Err(LineError::Broken(Rule::Syntax))
    }
}

/// No leading zero, but for 0 itself.
fn is_plain(digits: &[u8]) -> bool
    ensures { result ≡ is_plain digits.now }
{
    match digits {
        [] => false,
        [_] => true,
        [first, _, ..] => *first != b'0',
    }
}

#[tactic(auto, unfolding(crate::specs::Reading::constant))]
fn take_constant<'a>(words: &mut LineWords<'a>) -> Result<&'a [u8], LineError<Rule>>
    ensures { Takes (λ x. x.now) result words.new (constant words.old) }
{
    let Some(w) = words.next() else {
        return Err(LineError::Broken(Rule::Syntax));
    };
    if matches!(w.kind, Kind::Number) && is_plain(w.bytes) {
        Ok(w.bytes)
    } else {
        Err(LineError::Broken(Rule::Syntax))
    }
}

type Pair<'a> = (Box<Written<'a>>, Box<Written<'a>>);

/// The two operands of an operator, in parentheses.
#[cycle(expr)]
#[tactic(auto, unfolding(crate::specs::Reading::pair))]
fn pair<'a>(
    alloc: Global,
    words: &mut LineWords<'a>,
    depth: u32,
) -> Result<Pair<'a>, LineError<Rule>>
    ensures { TakesTwo (λ x. expression x.0.value) (λ x. expression x.1.value) result words.new (pair (expr_at depth) words.old) }
{
    take_sign(words, b"(")?;
    let a = expr(alloc, words, depth)?;
    take_sign(words, b",")?;
    let b = expr(alloc, words, depth)?;
    take_sign(words, b")")?;
    Ok((Box::new(alloc, a)?, Box::new(alloc, b)?))
}

type Delay<'a> = (Box<Written<'a>>, &'a [u8]);

/// The operand and the constant of a delay, in parentheses.
#[cycle(expr)]
#[tactic(auto, unfolding(crate::specs::Reading::delay))]
fn delay<'a>(
    alloc: Global,
    words: &mut LineWords<'a>,
    depth: u32,
) -> Result<Delay<'a>, LineError<Rule>>
    ensures { TakesTwo (λ x. expression x.0.value) (λ x. x.1.now) result words.new (delay (expr_at depth) words.old) }
{
    take_sign(words, b"(")?;
    let a = expr(alloc, words, depth)?;
    take_sign(words, b",")?;
    let n = take_constant(words)?;
    take_sign(words, b")")?;
    Ok((Box::new(alloc, a)?, n))
}

/// Takes the expression at the front, of at most `depth` nested operators.
#[cycle(expr)]
#[tactic(auto, unfolding(crate::specs::Reading::expr_at))]
pub fn expr<'a>(
    alloc: Global,
    words: &mut LineWords<'a>,
    depth: u32,
) -> Result<Written<'a>, LineError<Rule>>
    ensures { Takes expression result words.new (expr_at depth words.old) }
{
    let Some(w) = words.next() else {
        return Err(LineError::Broken(Rule::Syntax));
    };
    match key_of(&w) {
        Key::Never => Ok(Written::Never),
        Key::Plain => Ok(Written::Name(w.bytes)),
        Key::NoName => Err(LineError::Broken(Rule::Syntax)),
        _ if depth == 0 => Err(LineError::Broken(Rule::Syntax)),
        Key::Min => {
            let (a, b) = pair(alloc, words, depth - 1)?;
            Ok(Written::Min(a, b))
        }
        Key::Max => {
            let (a, b) = pair(alloc, words, depth - 1)?;
            Ok(Written::Max(a, b))
        }
        Key::Lt => {
            let (a, b) = pair(alloc, words, depth - 1)?;
            Ok(Written::Lt(a, b))
        }
        Key::Inc => {
            let (a, n) = delay(alloc, words, depth - 1)?;
            Ok(Written::Inc(a, n))
        }
    }
}
