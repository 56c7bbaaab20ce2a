//! The form that the words of a line are.
ghost use Rattle.std.specs.Prelude.{◌≡◌, ◌<◌, ◌^◌};
ghost use Rattle.rl_text.specs.Words.{word};
ghost use Rattle.rl_text.specs.Numbers.{is_plain};
ghost use Rattle.refutation.specs.FormReading.{is_name, is_sign, number_at, number_first, bound_first, difference_first, after_colon, chain_at, ended, split_at, fact_at, header_at, begin_at, by_word, form_at};
ghost use Rattle.refutation.specs.Draft.{form, Gives, Takes, TakesWord};

use super::form::{Difference, Form};
use super::rules::Rule;
use crate::chain::Chain;
use crate::limits::{MOST_BOUND, NUMBERS_END};
use line_lang::LineError;
use net_model::MOST_PORTS;
use rl_text::{Kind, LineWords, Word, capped_number};
use std::alloc::Global;

fn is_name(kind: Kind) -> bool
    ensures { result ≡ is_name kind }
{
    matches!(kind, Kind::Name)
}

fn is_sign(sign: &[u8], w: &Word<'_>) -> bool
    ensures { result ≡ is_sign sign.now (word w.now) }
{
    matches!(w.kind, Kind::Symbol) && w.bytes == sign
}

/// No leading zero, but for 0 itself.
fn is_plain(digits: &[u8]) -> bool
    ensures { result ≡ is_plain digits.now }
{
    match digits {
        [] => false,
        [_] => true,
        [first, _, ..] => *first != b'0',
    }
}

/// The number that a word is, and `limit` for each that is greater.
#[tactic(auto, unfolding(crate::specs::FormReading::number_at))]
fn number_at(w: &Word<'_>, limit: u32) -> Result<u32, LineError<Rule>>
    ensures { Gives (λ n. n) result (number_at limit (word w.now)) }
{
    if matches!(w.kind, Kind::Number) && is_plain(w.bytes) {
        Ok(capped_number(w.bytes, limit))
    } else {
        Err(LineError::Broken(Rule::Syntax))
    }
}

/// Takes a number, as far as it matters.
#[tactic(auto, unfolding(crate::specs::FormReading::number_first))]
fn take_number(words: &mut LineWords<'_>, limit: u32) -> Result<u32, LineError<Rule>>
    ensures { Takes result words.new (number_first limit words.old) }
{
    let Some(w) = words.next() else {
        return Err(LineError::Broken(Rule::Syntax));
    };
    number_at(&w, limit)
}

/// Takes a bound, which is a number or `-` and a number.
#[tactic(auto, unfolding(crate::specs::FormReading::bound_first))]
fn take_bound(words: &mut LineWords<'_>) -> Result<i64, LineError<Rule>>
    ensures { Takes result words.new (bound_first words.old) }
{
    let Some(w) = words.next() else {
        return Err(LineError::Broken(Rule::Syntax));
    };
    let limit = MOST_BOUND as u32 + 1;
    if is_sign(b"-", &w) {
        let n = take_number(words, limit)?;
        Ok(-i64::from(n))
    } else {
        let n = number_at(&w, limit)?;
        Ok(i64::from(n))
    }
}

/// Takes the places of two inputs, and a bound.
#[tactic(auto, unfolding(crate::specs::FormReading::difference_first))]
fn take_difference(words: &mut LineWords<'_>) -> Result<Difference, LineError<Rule>>
    ensures { Takes result words.new (difference_first words.old) }
{
    let from = take_number(words, MOST_PORTS as u32)?;
    let to = take_number(words, MOST_PORTS as u32)?;
    let bound = take_bound(words)?;
    Ok(Difference { from, to, bound })
}

#[tactic(auto, unfolding(crate::specs::FormReading::after_colon))]
fn take_colon(words: &mut LineWords<'_>) -> Result<(), LineError<Rule>>
    ensures { TakesWord result words.new (after_colon words.old) }
{
    let Some(w) = words.next() else {
        return Err(LineError::Broken(Rule::Syntax));
    };
    if is_sign(b":", &w) {
        Ok(())
    } else {
        Err(LineError::Broken(Rule::Syntax))
    }
}

/// The chain that all these words are.
fn chain_at(alloc: Global, words: LineWords<'_>) -> Result<Chain, LineError<Rule>>
    ensures { Gives (λ chain. chain) result (chain_at words.entry) }
{
    let mut rest = words;
    let mut chain = Chain::new(alloc);
    while let Some(w) = rest.next() {
        let number = number_at(&w, NUMBERS_END)?;
        chain.push(number)?;
    }
    Ok(chain)
}

/// This form, where there are no more words.
fn ended<'a>(line: Form<'a>, words: LineWords<'_>) -> Result<Form<'a>, LineError<Rule>>
    ensures { Gives form result (ended (form line.entry) words.entry) }
{
    let mut rest = words;
    if rest.next().is_some() {
        return Err(LineError::Broken(Rule::Syntax));
    }
    Ok(line)
}

#[tactic(auto, unfolding(crate::specs::FormReading::split_at))]
fn split_at<'a>(words: LineWords<'_>) -> Result<Form<'a>, LineError<Rule>>
    ensures { Gives form result (split_at words.entry) }
{
    let mut rest = words;
    let difference = take_difference(&mut rest)?;
    ended(Form::Split(difference), rest)
}

#[tactic(auto, unfolding(crate::specs::FormReading::fact_at))]
fn fact_at<'a>(alloc: Global, words: LineWords<'_>) -> Result<Form<'a>, LineError<Rule>>
    ensures { Gives form result (fact_at words.entry) }
{
    let mut rest = words;
    let difference = take_difference(&mut rest)?;
    take_colon(&mut rest)?;
    let chain = chain_at(alloc, rest)?;
    Ok(Form::Fact(difference, chain))
}

#[tactic(auto, unfolding(crate::specs::FormReading::header_at))]
fn header_at<'a>(words: LineWords<'_>) -> Result<Form<'a>, LineError<Rule>>
    ensures { Gives form result (header_at words.entry) }
{
    let mut rest = words;
    let Some(w) = rest.next() else {
        return Err(LineError::Broken(Rule::Syntax));
    };
    if matches!(w.kind, Kind::Number) && w.bytes == b"1".as_slice() {
        ended(Form::Header, rest)
    } else {
        Err(LineError::Broken(Rule::Syntax))
    }
}

#[tactic(auto, unfolding(crate::specs::FormReading::begin_at))]
fn begin_at<'a>(words: LineWords<'a>) -> Result<Form<'a>, LineError<Rule>>
    ensures { Gives form result (begin_at words.entry) }
{
    let mut rest = words;
    let Some(w) = rest.next() else {
        return Err(LineError::Broken(Rule::Syntax));
    };
    if is_name(w.kind) {
        ended(Form::Begin(w.bytes), rest)
    } else {
        Err(LineError::Broken(Rule::Syntax))
    }
}

/// The form of a line that begins with this word.
#[tactic(auto, unfolding(crate::specs::FormReading::by_word))]
fn by_word<'a>(alloc: Global, word: &[u8], rest: LineWords<'a>) -> Result<Form<'a>, LineError<Rule>>
    ensures { Gives form result (by_word word.now rest.entry) }
{
    if word == b"fact".as_slice() {
        fact_at(alloc, rest)
    } else if word == b"split".as_slice() {
        split_at(rest)
    } else if word == b"leaf".as_slice() {
        ended(Form::Leaf, rest)
    } else if word == b"closed".as_slice() {
        let chain = chain_at(alloc, rest)?;
        Ok(Form::Closed(chain))
    } else if word == b"open".as_slice() {
        ended(Form::Open, rest)
    } else if word == b"tree".as_slice() {
        begin_at(rest)
    } else if word == b"end".as_slice() {
        ended(Form::End, rest)
    } else if word == b"racetree".as_slice() {
        header_at(rest)
    } else {
        Err(LineError::Broken(Rule::Syntax))
    }
}

/// The form of a line.
#[tactic(auto, unfolding(crate::specs::FormReading::form_at))]
pub fn form_at<'a>(alloc: Global, line: LineWords<'a>) -> Result<Form<'a>, LineError<Rule>>
    ensures { Gives form result (form_at line.entry) }
{
    let mut rest = line;
    let Some(first) = rest.next() else {
        return Err(LineError::Broken(Rule::Syntax));
    };
    if !is_name(first.kind) {
        return Err(LineError::Broken(Rule::Syntax));
    }
    by_word(alloc, first.bytes, rest)
}
