ghost use Rattle.std.specs.Prelude.{◌≡◌, map};
ghost use Rattle.net_lang.specs.FormReading.{is_name, name_at, names_at, binding_at, is_one, form_at};
ghost use Rattle.net_lang.specs.Written.{expression, Gives, Takes};
ghost use Rattle.net_lang.specs.FormView.{form};

use super::reading::{expr, take_sign};
use super::rules::{Rule, Target};
use super::written::Written;
use line_lang::LineError;
use net_model::MOST_NESTING;
use rl_text::{Kind, LineWords};
use std::alloc::Global;

/// A line as it is written.
#[derive(Drop)]
pub enum Form<'a> {
    Header,
    Inputs(Vec<&'a [u8]>),
    Define(Target, &'a [u8], Written<'a>),
}

fn is_name(kind: Kind) -> bool
    ensures { result ≡ is_name kind }
{
    matches!(kind, Kind::Name)
}

/// Takes a name.
#[tactic(auto, unfolding(crate::specs::FormReading::name_at))]
fn take_name<'a>(words: &mut LineWords<'a>) -> Result<&'a [u8], LineError<Rule>>
    ensures { Takes (λ x. x.now) result words.new (name_at words.old) }
{
    let Some(w) = words.next() else {
        return Err(LineError::Broken(Rule::Syntax));
    };
    if is_name(w.kind) {
        Ok(w.bytes)
    } else {
        Err(LineError::Broken(Rule::Syntax))
    }
}

/// The bytes of words that are all names.
fn names_at<'a>(alloc: Global, words: LineWords<'a>) -> Result<Vec<&'a [u8]>, LineError<Rule>>
    ensures { Gives (λ v. map (λ n. n.now) v.items) result (names_at words.entry) }
{
    let mut rest = words;
    let mut names = Vec::new(alloc);
    while let Some(w) = rest.next() {
        if !is_name(w.kind) {
            return Err(LineError::Broken(Rule::Syntax));
        }
        names.push(w.bytes)?;
    }
    Ok(names)
}

#[tactic(auto, unfolding(crate::specs::FormReading::binding_at))]
fn binding_at<'a>(
    alloc: Global,
    words: LineWords<'a>,
) -> Result<(&'a [u8], Written<'a>), LineError<Rule>>
    ensures { Gives (λ x. (x.0.now, expression x.1)) result (binding_at words.entry) }
{
    let mut rest = words;
    let name = take_name(&mut rest)?;
    take_sign(&mut rest, b"=")?;
    let body = expr(alloc, &mut rest, MOST_NESTING)?;
    if rest.next().is_some() {
        return Err(LineError::Broken(Rule::Syntax));
    }
    Ok((name, body))
}

/// Whether the words are the number 1.
fn is_one(words: LineWords<'_>) -> bool
    ensures { result ≡ is_one words.entry }
{
    let mut rest = words;
    let Some(w) = rest.next() else {
        return false;
    };
    matches!(w.kind, Kind::Number) && w.bytes == b"1".as_slice() && rest.next().is_none()
}

/// The form of a line.
#[tactic(auto, unfolding(crate::specs::FormReading::form_at))]
pub fn form_at<'a>(alloc: Global, line: LineWords<'a>) -> Result<Form<'a>, LineError<Rule>>
    ensures { Gives form result (form_at line.entry) }
{
    let mut rest = line;
    let Some(first) = rest.next() else {
        return Err(LineError::Broken(Rule::Syntax));
    };
    if !is_name(first.kind) {
        return Err(LineError::Broken(Rule::Syntax));
    }
    let word = first.bytes;
    if word == b"racenet".as_slice() {
        if is_one(rest) {
            Ok(Form::Header)
        } else {
            Err(LineError::Broken(Rule::Syntax))
        }
    } else if word == b"input".as_slice() {
        let names = names_at(alloc, rest)?;
        if names.is_empty() {
            Err(LineError::Broken(Rule::Syntax))
        } else {
            Ok(Form::Inputs(names))
        }
    } else if word == b"let".as_slice() {
        let (name, body) = binding_at(alloc, rest)?;
        Ok(Form::Define(Target::Let, name, body))
    } else if word == b"output".as_slice() {
        let (name, body) = binding_at(alloc, rest)?;
        Ok(Form::Define(Target::Output, name, body))
    } else {
        Err(LineError::Broken(Rule::Syntax))
    }
}
