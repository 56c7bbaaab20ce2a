ghost use Rattle.std.specs.Prelude.{◌≡◌, ◌≢◌, ◌≤◌, ◌++◌, ◌∷◌, [], ℕ, length, OnOk, IfOk, IfErr, Err};
ghost use Rattle.net_model.specs.Rules.{names_of};
ghost use Rattle.net_model.specs.Value.{space_time_function};
ghost use Rattle.net_model.specs.Early.{AreEarly};
ghost use Rattle.func_table.specs.Function.{table_function};
ghost use Rattle.rl_jobs.specs.Sources.{inputs_of, outputs_of, function_of, FailsBy};
ghost use Rattle.rl_jobs.specs.Values.{value_line, value_lines, HasOtherInputs, IsValueText, IsNotValued};

use crate::error::JobError;
use crate::fault::Fault;
use crate::source::Source;
use func_table::{Table, apply};
use net_lang::{Binding, Network};
use rl_text::Name;
use rl_time::{NoMemory, Time, put_time};
use spike_eval;
use std::alloc::Global;

/// Adds the line of an output at the end.
fn put_value(text: &mut Vec<u8>, name: &Name, time: Time) -> Result<(), NoMemory>
    ensures { OnOk result (text.new.items ≡ text.old.items ++ value_line name.now time) }
{
    text.extend_from_slice(name.bytes())?;
    text.extend_from_slice(b" ")?;
    put_time(text, time)?;
    text.extend_from_slice(b"\n")?;
    Ok(())
}

/// The lines of outputs at these times, in order.
fn value_lines(alloc: Global, outputs: &[Binding], times: &[Time]) -> Result<Vec<u8>, NoMemory>
    requires { length times.now ≡ length outputs.now }
    ensures { IfOk result (λ text. text.items ≡ value_lines (names_of outputs.now) times.now) }
{
    let mut text = Vec::new(alloc);
    for (place, output) in outputs.iter().enumerate() {
        put_value(&mut text, output.name(), times[place])?;
    }
    Ok(text)
}

/// The lines of a network's outputs at these times of its inputs.
fn network_lines(alloc: Global, n: &Network, times: &[Time]) -> Result<Vec<u8>, NoMemory>
    requires early { AreEarly times.now }
    requires one_for_each_input { length times.now ≡ length n.now.inputs }
    ensures { IfOk result (λ text. text.items ≡ value_lines (names_of n.now.outputs) (space_time_function n.now times.now)) }
{
    let values = spike_eval::eval(alloc, n, times)?;
    value_lines(alloc, n.outputs(), &values)
}

/// The line of a table's output at these times of its inputs.
fn table_line(alloc: Global, t: &Table, times: &[Time]) -> Result<Vec<u8>, NoMemory>
    requires early { AreEarly times.now }
    requires one_for_each_input { length times.now ≡ length t.now.inputs }
    ensures { IfOk result (λ text. text.items ≡ value_lines (t.now.output ∷ []) (table_function t.now.rows times.now ∷ [])) }
{
    let mut text = Vec::new(alloc);
    put_value(&mut text, t.output(), apply(t, times))?;
    Ok(text)
}

impl Source {
    /// The lines of its outputs at times of its inputs.
    fn value_lines(&self, alloc: Global, times: &[Time]) -> Result<Vec<u8>, NoMemory>
        requires early { AreEarly times.now }
        requires one_for_each_input { length times.now ≡ length (inputs_of self.now) }
        ensures { IfOk result (λ text. text.items ≡ value_lines (outputs_of self.now) (function_of self.now times.now)) }
    {
        match self {
            Source::OfNetwork(n) => network_lines(alloc, n, times),
            Source::OfTable(t) => table_line(alloc, t, times),
        }
    }
}

/// Evaluates the network or the table of a file at times of its inputs: for each output a line of its name, a space and
/// its time, a number of cycles or `never`. Where the number of times is another than that of the inputs, the fault holds
/// the latter.
pub fn eval(alloc: Global, bytes: &[u8], times: &[Time]) -> Result<Vec<u8>, JobError>
    requires short { length bytes.now ≤ 1048576 }
    requires early { AreEarly times.now }
    ensures text { IfOk result (λ text. IsValueText times.now bytes.now text.items) }
    ensures cause { IfErr result (FailsBy (IsNotValued times.now bytes.now)) }
{
    let source = Source::read(alloc, 1, bytes)?;
    let inputs = source.inputs().len();
    if times.len() != inputs {
        return Err(JobError::Refused(Fault::Inputs(inputs as u64)));
    }
    Ok(source.value_lines(alloc, times)?)
}
