ghost use Rattle.std.specs.Prelude.{◌≡◌, ◌≢◌, ◌⊎◌, ◌≤◌, ◌↔◌, ℕ, List, Some, None};
ghost use Rattle.rl_io.specs.Causes.{Rose};
ghost use Rattle.rl_io.specs.Files.{Files};
ghost use Rattle.rl_jobs.specs.declared.fault.Fault.{Fault};
ghost use Rattle.rl_flow.specs.Words.{texts_of};
ghost use Rattle.rl_flow.specs.Task.{Command, command_of};
ghost use Rattle.rl_flow.specs.Asked.{asked, shelf_state, IsTooLong};
ghost use Rattle.rl_flow.specs.Answers.{CanBeDone};
ghost use Rattle.rl_flow.specs.Message.{line_of};
ghost use Rattle.rl_flow.specs.Outcome.{OnTexts, Says, Wrote, WritesNothing, IsAnswer, IsAnswerOf, HasCause, IsRefused, EndsBy, PutsLine, NoneRose, GaveFor};
ghost use Rattle.rl_flow.specs.declared.refusal.Refusal.{Refusal};
ghost use Rattle.rl_flow.specs.declared.refusal.Refusal.TheVariants as why;

use crate::message::line;
use crate::performing::perform;
use crate::refusal::Refusal;
use crate::status::Status;
use rl_io::{Shelf, Sink, put_all};
use std::alloc::Global;

/// Puts the line of a refusal. A sink that fails changes nothing else.
fn report<K: Sink>(err: &mut K, refusal: Refusal)
    ensures line { PutsLine (K.written err.old) (K.written err.new) (K.faults err.old) (K.faults err.new) (line_of refusal) }
    ensures planned { K.plan err.new ≡ K.plan err.old }
    ensures later { K.faults err.old ≤ K.faults err.new }
{
    let _ = put_all(err, line(refusal).as_bytes());
}

/// Runs a command: reads what its words name from the shelf, puts its text to `out`, and where it isn't answered one line
/// to `err`. All input is read and judged and the whole text is made before the first byte is put.
pub fn run<S: Shelf, K: Sink>(
    alloc: Global,
    words: &[String],
    shelf: &mut S,
    out: &mut K,
    err: &mut K,
) -> Status
    // Status 2 is answered exactly for words that are no command.
    ensures words { (result ≡ Status.Words) ↔ (command_of (texts_of words.now) ≡ None) }

    // What each status says, and what it leaves in standard output and in standard error.
    ensures status { Says (command_of (texts_of words.now))
        (shelf_state (S.contents shelf.old) (S.faults shelf.old) (S.given shelf.old))
        (shelf_state (S.contents shelf.new) (S.faults shelf.new) (S.given shelf.new))
        (K.faults out.old) (K.faults out.new) result }
    ensures written { Wrote (command_of (texts_of words.now)) (S.contents shelf.old) (K.written out.old) (K.written out.new) result }
    ensures still { WritesNothing result → out.new ≡ out.old }
    ensures quiet { IsAnswer result → err.new ≡ err.old }
    ensures line { (IsAnswer result → ⊥) → (r : Refusal) × EndsBy result (K.written err.old) (K.written err.new) (K.faults err.old) (K.faults err.new) r
        × HasCause (command_of (texts_of words.now))
        (shelf_state (S.contents shelf.old) (S.faults shelf.old) (S.given shelf.old))
        (shelf_state (S.contents shelf.new) (S.faults shelf.new) (S.given shelf.new))
        (K.faults out.old) (K.faults out.new) r }

    // Known files that are too long, or whose texts are refused, are refused with the line that says so, unless one could not
    // be read or memory ran out.
    ensures too_long { (files : Files) (c : Command) (number limit : ℕ) → S.contents shelf.old ≡ Some files → command_of (texts_of words.now) ≡ Some c →
        IsTooLong (Some files) (asked c) number limit →
        EndsBy result (K.written err.old) (K.written err.new) (K.faults err.old) (K.faults err.new) (why.TooLong number limit)
        ⊎ (result ≡ Status.ReadFault) ⊎ (result ≡ Status.NoMemory) }
    ensures refused { (files : Files) (c : Command) (f : Fault) → S.contents shelf.old ≡ Some files → command_of (texts_of words.now) ≡ Some c →
        IsRefused (Some files) c f →
        EndsBy result (K.written err.old) (K.written err.new) (K.faults err.old) (K.faults err.new) (why.Refused f)
        ⊎ (result ≡ Status.ReadFault) ⊎ (result ≡ Status.NoMemory) }

    // Known files with which the task can be done give an answer where no faults rose, unless memory ran out.
    ensures complete { (files : Files) (c : Command) → S.contents shelf.old ≡ Some files → command_of (texts_of words.now) ≡ Some c →
        OnTexts (Some files) c (CanBeDone c.task) →
        NoneRose (S.faults shelf.old) (S.faults shelf.new) c.files → (Rose (K.faults out.old) (K.faults out.new) → ⊥) →
        IsAnswerOf c.task result ⊎ (result ≡ Status.NoMemory) }

    // The shelf keeps its files and gives no more than is asked for, no count falls, and the calls that are to fail stay the same.
    ensures kept { S.contents shelf.new ≡ S.contents shelf.old }
    ensures asked { GaveFor (command_of (texts_of words.now))
        (shelf_state (S.contents shelf.old) (S.faults shelf.old) (S.given shelf.old))
        (shelf_state (S.contents shelf.new) (S.faults shelf.new) (S.given shelf.new)) }
    ensures grows { S.given shelf.old ≤ S.given shelf.new }
    ensures later { (n : List ℕ) → S.faults shelf.old n ≤ S.faults shelf.new n }
    ensures out_later { K.faults out.old ≤ K.faults out.new }
    ensures err_later { K.faults err.old ≤ K.faults err.new }
    ensures out_planned { K.plan out.new ≡ K.plan out.old }
    ensures err_planned { K.plan err.new ≡ K.plan err.old }
    ensures shelf_planned { S.plan shelf.new ≡ S.plan shelf.old }
{
    match perform(alloc, words, shelf, out) {
        Ok(verdict) => verdict.status(),
        Err(refusal) => {
            report(err, refusal);
            refusal.status()
        }
    }
}
