//! What decides how a run ends: it never gets standard error.
ghost use Rattle.std.specs.Prelude.{◌≡◌, ◌≢◌, ◌≤◌, ◌↔◌, ◌∷◌, [], ℕ, List, length, map, All, IfOk, IfErr, IsOkAnd, IsErrAnd, Err, Some, None, IsSomeAnd, ◌⊎◌};
ghost use Rattle.rl_io.specs.Causes.{Rose};
ghost use Rattle.rl_io.specs.Files.{Files};
ghost use Rattle.rl_jobs.specs.Sources.{FailsBy};
ghost use Rattle.rl_jobs.specs.declared.fault.Fault.{Fault};
ghost use Rattle.rl_flow.specs.Words.{texts_of};
ghost use Rattle.rl_flow.specs.Task.{Big, Check, Compare, Command, command_of};
ghost use Rattle.rl_flow.specs.Request.{task, IsSmall};
ghost use Rattle.rl_flow.specs.Asked.{limits, asked, shelf_state, AreWithin, IsTooLong};
ghost use Rattle.rl_flow.specs.Answers.{IsText, IsCause, CanBeDone, MayHave};
ghost use Rattle.rl_flow.specs.Outcome.{OnTexts, Answers, Leaves, HasCause, IsRefused, IsOrGivesWay, NoneRose, GaveFor};
ghost use Rattle.rl_flow.specs.declared.refusal.Refusal.TheVariants as why;

use crate::big::big_text;
use crate::equality::equality;
use crate::laws::one_fault;
use crate::loading::load_files;
use crate::order::sim_in_order;
use crate::refusal::Refusal;
use crate::request::Request;
use crate::sim::sim;
use crate::verdict::{Answer, Verdict};
use crate::words::parse;
use rl_io::{Shelf, Sink, put_all};
use rl_jobs::JobError;
use rl_jobs::check::check;
use rl_jobs::compile::compile;
use rl_jobs::eval::eval;
use rl_jobs::simplification::simplify;
use rl_jobs::synth::synth;
use rl_jobs::tabulate::tabulate;
use std::alloc::Global;

/// The most bytes that each file of a request may have, in the order of the files.
fn limits(request: &Request<'_>) -> &'static [u64]
    ensures limits { result.now ≡ limits (task request.now) }
    ensures small { All (λ l. l ≤ 67108864) result.now }
{
    match request {
        Request::Compile
        | Request::Eval(_)
        | Request::Synth
        | Request::Simplify
        | Request::Tabulate(_, _) => &[1_048_576],
        Request::Sim(_, _) | Request::SimInOrder(_, _, _) => &[16_777_216],
        Request::Check => &[1_048_576, 1_048_576, 67_108_864],
        Request::Compare(_) => &[1_048_576, 1_048_576],
        Request::Big(_) => &[],
    }
}

/// The only text.
fn only(texts: &[Vec<u8>]) -> &[u8]
    requires { length texts.now ≡ 1 }
    ensures { map (λ t. t.items) texts.now ≡ result.now ∷ [] }
{
    let [text] = texts else {
        unreachable!();
    };
    text.as_slice()
}

/// The two texts.
fn two(texts: &[Vec<u8>]) -> (&[u8], &[u8])
    requires { length texts.now ≡ 2 }
    ensures { map (λ t. t.items) texts.now ≡ result.0.now ∷ result.1.now ∷ [] }
{
    let [first, second] = texts else {
        unreachable!();
    };
    (first.as_slice(), second.as_slice())
}

/// The three texts.
fn three(texts: &[Vec<u8>]) -> (&[u8], &[u8], &[u8])
    requires { length texts.now ≡ 3 }
    ensures { map (λ t. t.items) texts.now ≡ result.0.now ∷ result.1.now ∷ result.2.now ∷ [] }
{
    let [first, second, third] = texts else {
        unreachable!();
    };
    (first.as_slice(), second.as_slice(), third.as_slice())
}

/// What the trees of the third text show of the networks of the first two: done where all are valid, and else no.
fn check_answer(alloc: Global, texts: &[Vec<u8>]) -> Result<Answer, JobError>
    requires count { length texts.now ≡ 3 }
    requires short { AreWithin (limits Check) (map (λ t. t.items) texts.now) }
    ensures text { IfOk result (λ a. IsText Check a.verdict (map (λ t. t.items) texts.now) a.text.items) }
    ensures cause { IfErr result (FailsBy (IsCause Check (map (λ t. t.items) texts.now))) }
{
    let (first, second, trees) = three(texts);
    let checked = check(alloc, first, second, trees)?;
    let verdict = if checked.accepted {
        Verdict::Done
    } else {
        Verdict::No
    };
    Ok(Answer {
        verdict,
        text: checked.text,
    })
}

/// Whether the networks of the two texts have equal outputs.
fn compare_answer(alloc: Global, budget: u32, texts: &[Vec<u8>]) -> Result<Answer, JobError>
    requires count { length texts.now ≡ 2 }
    requires short { AreWithin (limits (Compare budget)) (map (λ t. t.items) texts.now) }
    requires some { 1 ≤ budget }
    requires few { budget ≤ 1000000 }
    ensures text { IfOk result (λ a. IsText (Compare budget) a.verdict (map (λ t. t.items) texts.now) a.text.items) }
    ensures cause { IfErr result (FailsBy (IsCause (Compare budget) (map (λ t. t.items) texts.now))) }
{
    let (first, second) = two(texts);
    equality(alloc, first, second, budget)
}

/// What is counted of the large network that is made from a number. There are no texts.
fn big_answer(alloc: Global, n: u32, texts: &[Vec<u8>]) -> Result<Answer, JobError>
    requires none { length texts.now ≡ 0 }
    requires some { 1 ≤ n }
    requires few { n ≤ 16384 }
    ensures text { IfOk result (λ a. IsText (Big n) a.verdict (map (λ t. t.items) texts.now) a.text.items) }
    ensures cause { IfErr result (FailsBy (IsCause (Big n) (map (λ t. t.items) texts.now))) }
{
    match big_text(alloc, n) {
        Ok(text) => Ok(Answer::done(text)),
        Err(_) => Err(JobError::NoMemory),
    }
}

/// The answer to a request, from the texts of its files.
fn answer_to(alloc: Global, request: &Request<'_>, texts: &[Vec<u8>]) -> Result<Answer, JobError>
    requires count { length texts.now ≡ length (limits (task request.now)) }
    requires short { AreWithin (limits (task request.now)) (map (λ t. t.items) texts.now) }
    requires small { IsSmall request.now }
    ensures text { IfOk result (λ a. IsText (task request.now) a.verdict (map (λ t. t.items) texts.now) a.text.items) }
    ensures cause { IfErr result (FailsBy (IsCause (task request.now) (map (λ t. t.items) texts.now))) }
{
    match request {
        Request::Compile => Ok(Answer::done(compile(alloc, only(texts))?)),
        Request::Eval(times) => Ok(Answer::done(eval(alloc, only(texts), times.as_slice())?)),
        Request::Synth => Ok(Answer::done(synth(alloc, only(texts))?)),
        Request::Simplify => Ok(Answer::done(simplify(alloc, only(texts))?)),
        Request::Tabulate(name, window) => {
            let text = tabulate(alloc, only(texts), name.as_bytes(), *window)?;
            Ok(Answer::done(text))
        }
        Request::Sim(cycles, times) => {
            let text = sim(alloc, only(texts), *cycles, times.as_slice())?;
            Ok(Answer::done(text))
        }
        Request::SimInOrder(cycles, times, order) => {
            let text = sim_in_order(alloc, only(texts), *cycles, times.as_slice(), *order)?;
            Ok(Answer::done(text))
        }
        Request::Check => check_answer(alloc, texts),
        Request::Compare(budget) => compare_answer(alloc, *budget, texts),
        Request::Big(n) => big_answer(alloc, *n, texts),
    }
}

/// The answer to a command, from the files that it names.
fn answer<S: Shelf>(alloc: Global, words: &[String], shelf: &mut S) -> Result<Answer, Refusal>
    ensures kept { S.contents shelf.new ≡ S.contents shelf.old }
    ensures shelf_planned { S.plan shelf.new ≡ S.plan shelf.old }
    ensures later { (n : List ℕ) → S.faults shelf.old n ≤ S.faults shelf.new n }
    ensures grows { S.given shelf.old ≤ S.given shelf.new }
    ensures asked { GaveFor (command_of (texts_of words.now))
        (shelf_state (S.contents shelf.old) (S.faults shelf.old) (S.given shelf.old))
        (shelf_state (S.contents shelf.new) (S.faults shelf.new) (S.given shelf.new)) }
    ensures text { IfOk result (λ a. IsSomeAnd (command_of (texts_of words.now)) (λ c.
        OnTexts (S.contents shelf.old) c (λ texts. IsText c.task a.verdict texts a.text.items))) }
    ensures cause { (before : ℕ) (after : ℕ) → IfErr result (HasCause (command_of (texts_of words.now))
        (shelf_state (S.contents shelf.old) (S.faults shelf.old) (S.given shelf.old))
        (shelf_state (S.contents shelf.new) (S.faults shelf.new) (S.given shelf.new)) before after) }
    ensures unwritten { IfErr result (λ r. r ≢ why.WriteFault) }
{
    let Some(command) = parse(words) else {
        return Err(Refusal::Words);
    };
    let texts = load_files(alloc, shelf, command.files, limits(&command.request))?;
    Ok(answer_to(alloc, &command.request, &texts)?)
}

/// Performs a command, and says how it is answered, or why not: it reads the files that the words name from the shelf, and
/// puts its text to `out`. All input is read and judged and the whole text is made before the first byte is put.
pub fn perform<S: Shelf, K: Sink>(
    alloc: Global,
    words: &[String],
    shelf: &mut S,
    out: &mut K,
) -> Result<Verdict, Refusal>
    // The words are refused exactly where they are no command.
    ensures words { (result ≡ Err why.Words) ↔ (command_of (texts_of words.now) ≡ None) }

    // An answer is written whole. A refusal has its cause, and but for a write fault leaves standard output as it was.
    ensures done { IfOk result (λ verdict. IsSomeAnd (command_of (texts_of words.now)) (Answers (S.contents shelf.old) (K.written out.old) (K.written out.new) verdict)) }
    ensures cause { IfErr result (HasCause (command_of (texts_of words.now))
        (shelf_state (S.contents shelf.old) (S.faults shelf.old) (S.given shelf.old))
        (shelf_state (S.contents shelf.new) (S.faults shelf.new) (S.given shelf.new))
        (K.faults out.old) (K.faults out.new)) }
    ensures left { IfErr result (Leaves (command_of (texts_of words.now)) (S.contents shelf.old) (K.written out.old) (K.written out.new)) }
    ensures still { IfErr result (λ r. r ≢ why.WriteFault → out.new ≡ out.old) }

    // Known files that are too long, or whose texts are refused, give this refusal, unless one could not be read or memory
    // ran out.
    ensures too_long { (files : Files) (c : Command) (number limit : ℕ) → S.contents shelf.old ≡ Some files → command_of (texts_of words.now) ≡ Some c →
        IsTooLong (Some files) (asked c) number limit → IsErrAnd result (IsOrGivesWay (why.TooLong number limit)) }
    ensures refused { (files : Files) (c : Command) (f : Fault) → S.contents shelf.old ≡ Some files → command_of (texts_of words.now) ≡ Some c →
        IsRefused (Some files) c f → IsErrAnd result (IsOrGivesWay (why.Refused f)) }

    // Known files with which the task can be done give an answer where no faults rose, unless memory ran out.
    ensures complete { (files : Files) (c : Command) → S.contents shelf.old ≡ Some files → command_of (texts_of words.now) ≡ Some c →
        OnTexts (Some files) c (CanBeDone c.task) →
        NoneRose (S.faults shelf.old) (S.faults shelf.new) c.files → (Rose (K.faults out.old) (K.faults out.new) → ⊥) →
        IsOkAnd result (MayHave c.task) ⊎ (result ≡ Err why.NoMemory) }

    // The shelf keeps its files, gives no more than is asked for, and no count falls.
    ensures kept { S.contents shelf.new ≡ S.contents shelf.old }
    ensures shelf_planned { S.plan shelf.new ≡ S.plan shelf.old }
    ensures out_planned { K.plan out.new ≡ K.plan out.old }
    ensures asked { GaveFor (command_of (texts_of words.now))
        (shelf_state (S.contents shelf.old) (S.faults shelf.old) (S.given shelf.old))
        (shelf_state (S.contents shelf.new) (S.faults shelf.new) (S.given shelf.new)) }
    ensures grows { S.given shelf.old ≤ S.given shelf.new }
    ensures later { (n : List ℕ) → S.faults shelf.old n ≤ S.faults shelf.new n }
    ensures out_later { K.faults out.old ≤ K.faults out.new }
{
    one_fault();
    let answer = answer(alloc, words, shelf)?;
    match put_all(out, answer.text.as_slice()) {
        Ok(()) => Ok(answer.verdict),
        Err(_) => Err(Refusal::WriteFault),
    }
}
