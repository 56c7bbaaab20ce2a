//! Expressions at the front of words: `~` binds before `&` and `&` before `|`.
ghost use Rattle.std.specs.Prelude.{◌≡◌};
ghost use Rattle.verilog_text.specs.Reading.{bit_at, named, constant, product, sum, negation, group, operation, unary, expression_at};
ghost use Rattle.verilog_syntax.specs.Reads.{Gives};
ghost use Rattle.verilog_syntax.specs.View.{expression};
ghost use Rattle.rl_text.specs.declared.token.Kind.TheVariants.{Symbol};

use crate::error::ReadError;
use crate::words::{number, pass_sign, starts, take_sign};
use crate::written::Written;
use rl_text::{Kind, WordsLeft};
use std::alloc::Global;

/// `[k]` after a name.
#[tactic(auto, unfolding(verilog_text::specs::Reading::bit_at))]
fn bit<'a>(text: &'a [u8], words: &mut WordsLeft<'a>) -> Result<Written<'a>, ReadError>
    ensures { Gives (λ x. (expression x, words.new)) result (bit_at text.now words.old) }
{
    pass_sign(words, b"[")?;
    let place = number(words)?;
    pass_sign(words, b"]")?;
    Ok(Written::Bit(text, place))
}

/// What a name begins.
#[tactic(auto, unfolding(verilog_text::specs::Reading::named))]
fn named<'a>(text: &'a [u8], words: &mut WordsLeft<'a>) -> Result<Written<'a>, ReadError>
    ensures { Gives (λ x. (expression x, words.new)) result (named text.now words.old) }
{
    if starts(words, b"[") {
        bit(text, words)
    } else {
        Ok(Written::Name(text))
    }
}

#[tactic(auto, unfolding(verilog_text::specs::Reading::constant))]
fn constant<'a>(text: &[u8], words: &mut WordsLeft<'a>) -> Result<Written<'a>, ReadError>
    ensures { Gives (λ x. (expression x, words.new)) result (constant text.now words.old) }
{
    if text == b"1'b0".as_slice() {
        Ok(Written::Low)
    } else if text == b"1'b1".as_slice() {
        Ok(Written::High)
    } else {
        Err(ReadError::Syntax)
    }
}

/// What `&` joins, with at most `depth` nested `~` and `(`.
#[cycle(expr)]
#[tactic(auto, unfolding(verilog_text::specs::Reading::unary))]
fn unary<'a>(alloc: Global, words: &mut WordsLeft<'a>, depth: u32) -> Result<Written<'a>, ReadError>
    ensures { Gives (λ x. (expression x, words.new)) result (unary depth words.old) }
{
    match words.next() {
        None => Err(ReadError::Syntax),
        Some(w) => match w.kind {
            Kind::Name => named(w.bytes, words),
            Kind::Bits => constant(w.bytes, words),
            _ if depth == 0 => Err(ReadError::Syntax),
            Kind::Symbol => operation(alloc, w.bytes, words, depth - 1),
            _ => Err(ReadError::Syntax),
        },
    }
}

/// What a sign begins.
#[cycle(expr)]
#[tactic(auto, unfolding(verilog_text::specs::Reading::negation))]
fn operation<'a>(
    alloc: Global,
    sign: &[u8],
    words: &mut WordsLeft<'a>,
    depth: u32,
) -> Result<Written<'a>, ReadError>
    ensures { Gives (λ x. (expression x, words.new)) result (operation Symbol sign.now (unary depth) words.old) }
{
    if sign == b"~".as_slice() {
        let a = unary(alloc, words, depth)?;
        Ok(Written::Not(Box::new(alloc, a)?))
    } else if sign == b"(".as_slice() {
        group(alloc, words, depth)
    } else {
        Err(ReadError::Syntax)
    }
}

/// What an open parenthesis begins.
#[cycle(expr)]
#[tactic(auto, unfolding(verilog_text::specs::Reading::group))]
fn group<'a>(alloc: Global, words: &mut WordsLeft<'a>, depth: u32) -> Result<Written<'a>, ReadError>
    ensures { Gives (λ x. (expression x, words.new)) result (group (unary depth) words.old) }
{
    let a = sum(alloc, words, depth)?;
    pass_sign(words, b")")?;
    Ok(Written::Group(Box::new(alloc, a)?))
}

/// At most 64 parts with `&` between them.
#[cycle(expr)]
fn product<'a>(
    alloc: Global,
    words: &mut WordsLeft<'a>,
    depth: u32,
) -> Result<Written<'a>, ReadError>
    ensures { Gives (λ x. (expression x, words.new)) result (product (unary depth) words.old) }
{
    let mut all = unary(alloc, words, depth)?;
    for _ in 0..63u32 {
        if !take_sign(words, b"&") {
            return Ok(all);
        }
        let part = unary(alloc, words, depth)?;
        all = Written::And(Box::new(alloc, all)?, Box::new(alloc, part)?);
    }
    if starts(words, b"&") {
        Err(ReadError::Syntax)
    } else {
        Ok(all)
    }
}

/// At most 64 products with `|` between them.
#[cycle(expr)]
fn sum<'a>(alloc: Global, words: &mut WordsLeft<'a>, depth: u32) -> Result<Written<'a>, ReadError>
    ensures { Gives (λ x. (expression x, words.new)) result (sum (unary depth) words.old) }
{
    let mut all = product(alloc, words, depth)?;
    for _ in 0..63u32 {
        if !take_sign(words, b"|") {
            return Ok(all);
        }
        let part = product(alloc, words, depth)?;
        all = Written::Or(Box::new(alloc, all)?, Box::new(alloc, part)?);
    }
    if starts(words, b"|") {
        Err(ReadError::Syntax)
    } else {
        Ok(all)
    }
}

/// An expression, of at most 64 nested `~` and `(`.
#[tactic(auto, unfolding(verilog_text::specs::Reading::expression_at))]
pub fn expression<'a>(alloc: Global, words: &mut WordsLeft<'a>) -> Result<Written<'a>, ReadError>
    ensures { Gives (λ x. (expression x, words.new)) result (expression_at words.old) }
{
    sum(alloc, words, 64)
}
