//! Statements at the front of words.
ghost use Rattle.std.specs.Prelude.{◌≡◌, map};
ghost use Rattle.verilog_text.specs.Reading.{range_at, shifted_at, next_at, names_at, header_at, declared_at, ranged_at, reg_at, assign_at, after_edge, after_reset, zeroed_at, update_at, always_at, end_at, by_word, form_at};
ghost use Rattle.verilog_syntax.specs.Reads.{Gives};
ghost use Rattle.verilog_syntax.specs.View.{form, next};

use crate::error::ReadError;
use crate::statement::{Always, Form};
use crate::syntax::expression;
use crate::words::{bits, name, number, pass_name, pass_number, pass_sign, starts, take_sign};
use crate::written::Next;
use rl_text::{Kind, WordsLeft};
use std::alloc::Global;

/// `[m:0]`
#[tactic(auto, unfolding(verilog_text::specs::Reading::range_at))]
fn range<'a>(words: &mut WordsLeft<'a>) -> Result<&'a [u8], ReadError>
    ensures { Gives (λ x. (x.now, words.new)) result (range_at words.old) }
{
    pass_sign(words, b"[")?;
    let last = number(words)?;
    pass_sign(words, b":")?;
    pass_number(words, b"0")?;
    pass_sign(words, b"]")?;
    Ok(last)
}

/// `{r[k:0], e}`
#[tactic(auto, unfolding(verilog_text::specs::Reading::shifted_at))]
fn shifted<'a>(alloc: Global, words: &mut WordsLeft<'a>) -> Result<Next<'a>, ReadError>
    ensures { Gives (λ x. (next x, words.new)) result (shifted_at words.old) }
{
    pass_sign(words, b"{")?;
    let reg = name(words)?;
    let last = range(words)?;
    pass_sign(words, b",")?;
    let body = expression(alloc, words)?;
    pass_sign(words, b"}")?;
    Ok(Next::Shifted(reg, last, body))
}

/// What a register takes.
#[tactic(auto, unfolding(verilog_text::specs::Reading::next_at))]
fn next<'a>(alloc: Global, words: &mut WordsLeft<'a>) -> Result<Next<'a>, ReadError>
    ensures { Gives (λ x. (next x, words.new)) result (next_at words.old) }
{
    if starts(words, b"{") {
        shifted(alloc, words)
    } else {
        let body = expression(alloc, words)?;
        Ok(Next::Whole(body))
    }
}

/// Names with commas between them.
fn names<'a>(alloc: Global, words: &mut WordsLeft<'a>) -> Result<Vec<&'a [u8]>, ReadError>
    ensures { Gives (λ x. (map (λ n. n.now) x.items, words.new)) result (names_at words.old) }
{
    let first = name(words)?;
    let mut all = Vec::new(alloc);
    all.push(first)?;
    while take_sign(words, b",") {
        let next = name(words)?;
        all.push(next)?;
    }
    Ok(all)
}

/// What `module` begins.
#[tactic(auto, unfolding(verilog_text::specs::Reading::header_at))]
fn header<'a>(alloc: Global, words: &mut WordsLeft<'a>) -> Result<Form<'a>, ReadError>
    ensures { Gives (λ x. (form x, words.new)) result (header_at words.old) }
{
    let module = name(words)?;
    pass_sign(words, b"(")?;
    let ports = names(alloc, words)?;
    pass_sign(words, b")")?;
    pass_sign(words, b";")?;
    Ok(Form::Header(module, ports))
}

/// A name and a semicolon.
#[tactic(auto, unfolding(verilog_text::specs::Reading::declared_at))]
fn declared<'a>(words: &mut WordsLeft<'a>) -> Result<&'a [u8], ReadError>
    ensures { Gives (λ x. (x.now, words.new)) result (declared_at words.old) }
{
    let text = name(words)?;
    pass_sign(words, b";")?;
    Ok(text)
}

/// A range, a name and a semicolon.
#[tactic(auto, unfolding(verilog_text::specs::Reading::ranged_at))]
fn ranged<'a>(words: &mut WordsLeft<'a>) -> Result<Form<'a>, ReadError>
    ensures { Gives (λ x. (form x, words.new)) result (ranged_at words.old) }
{
    let last = range(words)?;
    let text = declared(words)?;
    Ok(Form::Reg(Some(last), text))
}

/// What `reg` begins.
#[tactic(auto, unfolding(verilog_text::specs::Reading::reg_at))]
fn reg<'a>(words: &mut WordsLeft<'a>) -> Result<Form<'a>, ReadError>
    ensures { Gives (λ x. (form x, words.new)) result (reg_at words.old) }
{
    if starts(words, b"[") {
        ranged(words)
    } else {
        let text = declared(words)?;
        Ok(Form::Reg(None, text))
    }
}

/// What `assign` begins.
#[tactic(auto, unfolding(verilog_text::specs::Reading::assign_at))]
fn assign<'a>(alloc: Global, words: &mut WordsLeft<'a>) -> Result<Form<'a>, ReadError>
    ensures { Gives (λ x. (form x, words.new)) result (assign_at words.old) }
{
    let target = name(words)?;
    pass_sign(words, b"=")?;
    let body = expression(alloc, words)?;
    pass_sign(words, b";")?;
    Ok(Form::Assign(target, body))
}

/// Takes `@(posedge clk)`.
#[tactic(auto, unfolding(verilog_text::specs::Reading::after_edge))]
fn pass_edge(words: &mut WordsLeft<'_>) -> Result<(), ReadError>
    ensures { Gives (λ _. words.new) result (after_edge words.old) }
{
    pass_sign(words, b"@")?;
    pass_sign(words, b"(")?;
    pass_name(words, b"posedge")?;
    pass_name(words, b"clk")?;
    pass_sign(words, b")")
}

/// Takes `if (rst)`.
#[tactic(auto, unfolding(verilog_text::specs::Reading::after_reset))]
fn pass_reset(words: &mut WordsLeft<'_>) -> Result<(), ReadError>
    ensures { Gives (λ _. words.new) result (after_reset words.old) }
{
    pass_name(words, b"if")?;
    pass_sign(words, b"(")?;
    pass_name(words, b"rst")?;
    pass_sign(words, b")")
}

/// `r <= z; else`
#[tactic(auto, unfolding(verilog_text::specs::Reading::zeroed_at))]
fn zeroed<'a>(words: &mut WordsLeft<'a>) -> Result<(&'a [u8], &'a [u8]), ReadError>
    ensures { Gives (λ x. ((x.0.now, x.1.now), words.new)) result (zeroed_at words.old) }
{
    let reset = name(words)?;
    pass_sign(words, b"<=")?;
    let zero = bits(words)?;
    pass_sign(words, b";")?;
    pass_name(words, b"else")?;
    Ok((reset, zero))
}

/// `s <= e;`
#[tactic(auto, unfolding(verilog_text::specs::Reading::update_at))]
fn update<'a>(alloc: Global, words: &mut WordsLeft<'a>) -> Result<(&'a [u8], Next<'a>), ReadError>
    ensures { Gives (λ x. ((x.0.now, next x.1), words.new)) result (update_at words.old) }
{
    let update = name(words)?;
    pass_sign(words, b"<=")?;
    let body = next(alloc, words)?;
    pass_sign(words, b";")?;
    Ok((update, body))
}

/// What `always` begins.
#[tactic(auto, unfolding(verilog_text::specs::Reading::always_at))]
fn always<'a>(alloc: Global, words: &mut WordsLeft<'a>) -> Result<Form<'a>, ReadError>
    ensures { Gives (λ x. (form x, words.new)) result (always_at words.old) }
{
    pass_edge(words)?;
    pass_reset(words)?;
    let (reset, zero) = zeroed(words)?;
    let (update, next) = update(alloc, words)?;
    let always = Always {
        reset,
        zero,
        update,
        next,
    };
    Ok(Form::Always(Box::new(alloc, always)?))
}

/// What `endmodule` begins: the end of the text.
#[tactic(auto, unfolding(verilog_text::specs::Reading::end_at))]
fn end<'a>(words: &mut WordsLeft<'a>) -> Result<Form<'a>, ReadError>
    ensures { Gives (λ x. (form x, words.new)) result (end_at words.old) }
{
    match words.next() {
        None => Ok(Form::End),
        Some(_) => Err(ReadError::Syntax),
    }
}

/// What a word begins.
fn by_word<'a>(alloc: Global, word: &[u8], words: &mut WordsLeft<'a>) -> Result<Form<'a>, ReadError>
    ensures { Gives (λ x. (form x, words.new)) result (by_word word.now words.old) }
{
    if word == b"module".as_slice() {
        header(alloc, words)
    } else if word == b"input".as_slice() {
        let text = declared(words)?;
        Ok(Form::Input(text))
    } else if word == b"output".as_slice() {
        let text = declared(words)?;
        Ok(Form::Output(text))
    } else if word == b"wire".as_slice() {
        let text = declared(words)?;
        Ok(Form::Wire(text))
    } else if word == b"reg".as_slice() {
        reg(words)
    } else if word == b"assign".as_slice() {
        assign(alloc, words)
    } else if word == b"always".as_slice() {
        always(alloc, words)
    } else if word == b"endmodule".as_slice() {
        end(words)
    } else {
        Err(ReadError::Syntax)
    }
}

/// Takes the statement at the front.
#[tactic(auto, unfolding(verilog_text::specs::Reading::form_at))]
pub fn form<'a>(alloc: Global, words: &mut WordsLeft<'a>) -> Result<Form<'a>, ReadError>
    ensures { Gives (λ x. (form x, words.new)) result (form_at words.old) }
{
    match words.next() {
        Some(w) if matches!(w.kind, Kind::Name) => by_word(alloc, w.bytes, words),
        _ => Err(ReadError::Syntax),
    }
}
