//! Whether two networks have equal outputs.
ghost use Rattle.std.specs.Prelude.{◌≡◌, ◌≤◌, ◌<◌, ◌++◌, ◌∷◌, [], length, OnOk, IfOk, IfErr};
ghost use Rattle.std.specs.List.{All};
ghost use Rattle.net_model.specs.Rules.{names_of};
ghost use Rattle.spike_eval.specs.Outputs.{output_function};
ghost use Rattle.case_split.specs.Verdicts.{IsSmallNumber};
ghost use Rattle.rl_jobs.specs.Sources.{FailsBy};
ghost use Rattle.rl_jobs.specs.Values.{value_line, value_lines};
ghost use Rattle.rl_jobs.specs.Pairs.{two_texts};
ghost use Rattle.rl_flow.specs.Equality.{output_name, difference_text, undecided_text};
ghost use Rattle.rl_flow.specs.Task.{Compare};
ghost use Rattle.rl_flow.specs.Answers.{IsText, IsCause};

use crate::verdict::{Answer, Verdict};
use case_split::{Compared, compare};
use net_lang::Network;
use refutation::print_tree;
use rl_jobs::pairs::read_pair;
use rl_jobs::{JobError, laws};
use rl_text::{Name, put, put_number};
use rl_time::{NoMemory, Time, put_time};
use spike_eval::eval;
use std::alloc::Global;
use term_store::Store;

/// Adds a line of a name and a time at the end.
fn put_value(text: &mut Vec<u8>, name: &[u8], time: Time) -> Result<(), NoMemory>
    ensures { OnOk result (text.new.items ≡ text.old.items ++ value_line name.now time) }
{
    put(text, name)?;
    put(text, b" ")?;
    put_time(text, time)?;
    put(text, b"\n")
}

/// Adds a line for each input with its time.
fn put_values(text: &mut Vec<u8>, names: &[Name], times: &[Time]) -> Result<(), NoMemory>
    requires { length times.now ≡ length names.now }
    ensures { OnOk result (text.new.items ≡ text.old.items ++ value_lines names.now times.now) }
{
    for (place, name) in names.iter().enumerate() {
        put_value(text, name.bytes(), times[place])?;
    }
    Ok(())
}

/// The lines of an output that differs at these times.
fn difference_text(
    alloc: Global,
    first: &Network,
    second: &Network,
    out: u32,
    times: &[Time],
) -> Result<Vec<u8>, NoMemory>
    requires first_inputs { length times.now ≡ length first.now.inputs }
    requires second_inputs { length times.now ≡ length second.now.inputs }
    requires first_has { out < length first.now.outputs }
    requires second_has { out < length second.now.outputs }
    requires small { All IsSmallNumber times.now }
    ensures { IfOk result (λ text. text.items ≡ difference_text first.now second.now out times.now) }
{
    let one = eval(alloc, first, times)?;
    let other = eval(alloc, second, times)?;
    let mut text = Vec::new(alloc);
    put(&mut text, b"different ")?;
    put(&mut text, first.outputs()[out as usize].name().bytes())?;
    put(&mut text, b"\n")?;
    put_values(&mut text, first.inputs(), times)?;
    put_value(&mut text, b"first", one[out as usize])?;
    put_value(&mut text, b"second", other[out as usize])?;
    Ok(text)
}

/// The line of an output that isn't decided.
fn undecided_text(alloc: Global, first: &Network, out: u32, cases: u32) -> Result<Vec<u8>, NoMemory>
    requires has { out < length first.now.outputs }
    ensures { IfOk result (λ text. text.items ≡ undecided_text first.now out cases) }
{
    let mut text = Vec::new(alloc);
    put(&mut text, b"undecided ")?;
    put(&mut text, first.outputs()[out as usize].name().bytes())?;
    put(&mut text, b" ")?;
    put_number(&mut text, cases)?;
    put(&mut text, b"\n")?;
    Ok(text)
}

/// Whether the networks of two files have equal outputs, by trees of at most `budget` items: done with the text of a tree for each output where
/// all are equal; no, with times at which the first that isn't equal differs; and undecided where the budget is spent.
///
/// Each file has at most 1,048,576 bytes, and the budget is 1 to 1,000,000. Refused are files that are no networks, by the first broken rule of the
/// first such file, and then names that differ.
pub fn equality(alloc: Global, first: &[u8], second: &[u8], budget: u32) -> Result<Answer, JobError>
    requires first { length first.now ≤ 1048576 }
    requires second { length second.now ≤ 1048576 }
    requires some { 1 ≤ budget }
    requires few { budget ≤ 1000000 }
    ensures text { IfOk result (λ a. IsText (Compare budget) a.verdict (first.now ∷ second.now ∷ []) a.text.items) }
    ensures cause { IfErr result (FailsBy (IsCause (Compare budget) (first.now ∷ second.now ∷ []))) }
{
    laws::valid_trees_show_equality();
    let (first, second) = read_pair(alloc, first, second)?;
    first.rules();
    let mut store = Store::new(alloc)?;
    match compare(alloc, &first, &second, &[], budget, &mut store)? {
        Compared::Equal(trees) => Ok(Answer::done(print_tree(alloc, &trees)?)),
        Compared::Different(out, times) => Ok(Answer {
            verdict: Verdict::No,
            text: difference_text(alloc, &first, &second, out, &times)?,
        }),
        Compared::Undecided(out, cases) => Ok(Answer {
            verdict: Verdict::Undecided,
            text: undecided_text(alloc, &first, out, cases)?,
        }),
    }
}
