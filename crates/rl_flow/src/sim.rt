ghost use Rattle.std.specs.Prelude.{◌≡◌, ◌≤◌, ◌++◌, ℕ, List, length, map, OnOk, IfOk, IfErr};
ghost use Rattle.circuit.specs.Meaning.{State, IsHistory, levels_from};
ghost use Rattle.verilog_text.specs.Spelling.{SpellsModule};
ghost use Rattle.levels.specs.Digits.{output_rows};
ghost use Rattle.rl_jobs.specs.declared.fault.Fault.TheVariants as fault;
ghost use Rattle.rl_jobs.specs.declared.error.JobError.TheVariants.{Refused};
ghost use Rattle.rl_jobs.specs.Sources.{FailsBy};
ghost use Rattle.rl_flow.specs.Levels.{level_line, level_lines, IsLevelText, IsNoModule, IsNotSimulated};

use cycle_sim::simulate;
use rl_jobs::{Fault, JobError};
use rl_text::Name;
use rl_time::{NoMemory, Time};
use std::alloc::Global;
use verilog_read::{VerilogError, read_module};
use verilog_text::{Module, Rule, laws};

/// The fault of a rule that a module's text breaks.
fn broken_module(rule: Rule, line: u32) -> JobError
    ensures { result ≡ Refused (fault.Module 1 rule line) }
{
    JobError::Refused(Fault::Module(1, rule, line))
}

/// The module of a file's bytes.
fn module_of(alloc: Global, bytes: &[u8]) -> Result<Module, JobError>
    requires short { length bytes.now ≤ 16777216 }
    ensures circuit { IfOk result (SpellsModule bytes.now) }
    ensures cause { IfErr result (FailsBy (IsNoModule bytes.now)) }
{
    match read_module(alloc, bytes) {
        Ok(m) => Ok(m),
        Err(VerilogError::Syntax(line)) => Err(broken_module(Rule::Syntax, line)),
        Err(VerilogError::Name(line)) => Err(broken_module(Rule::Name, line)),
        Err(VerilogError::Order(line)) => Err(broken_module(Rule::Order, line)),
        Err(VerilogError::Width(line)) => Err(broken_module(Rule::Width, line)),
        Err(VerilogError::Limit(line)) => Err(broken_module(Rule::Limit, line)),
        Err(VerilogError::NoMemory) => Err(JobError::NoMemory),
    }
}

/// The module of a file's bytes, if it has as many inputs as there are times. Where it has another number, the fault holds that.
pub fn module_for(alloc: Global, bytes: &[u8], times: &[Time]) -> Result<Module, JobError>
    requires short { length bytes.now ≤ 16777216 }
    ensures circuit { IfOk result (SpellsModule bytes.now) }
    ensures inputs { IfOk result (λ m. length times.now ≡ length m.inputs) }
    ensures cause { IfErr result (FailsBy (IsNotSimulated times.now bytes.now)) }
{
    let m = module_of(alloc, bytes)?;
    m.rules();
    let inputs = m.inputs().len();
    if times.len() != inputs {
        return Err(JobError::Refused(Fault::Inputs(inputs as u64)));
    }
    Ok(m)
}

/// Adds the line of an output at the end.
fn put_levels(text: &mut Vec<u8>, name: &Name, digits: &[u8]) -> Result<(), NoMemory>
    ensures { OnOk result (text.new.items ≡ text.old.items ++ level_line name.now digits.now) }
{
    text.extend_from_slice(name.bytes())?;
    text.extend_from_slice(b" ")?;
    text.extend_from_slice(digits)?;
    text.extend_from_slice(b"\n")?;
    Ok(())
}

/// The lines of outputs of these names with these digits, in order.
pub fn level_lines(alloc: Global, names: &[Name], rows: &[Vec<u8>]) -> Result<Vec<u8>, NoMemory>
    requires { length rows.now ≡ length names.now }
    ensures { IfOk result (λ text. text.items ≡ level_lines names.now (map (λ row. row.items) rows.now)) }
{
    let mut text = Vec::new(alloc);
    for (place, name) in names.iter().enumerate() {
        put_levels(&mut text, name, &rows[place])?;
    }
    Ok(text)
}

/// The lines of a module's outputs over the first cycles.
fn lines_of(alloc: Global, m: &Module, times: &[Time], cycles: u32) -> Result<Vec<u8>, NoMemory>
    requires one_for_each_input { length times.now ≡ length m.now.inputs }
    requires some_cycles { 1 ≤ cycles }
    requires few_cycles { cycles ≤ 100000 }
    ensures { IfOk result (λ text. (states : List State) × IsHistory m.now (levels_from times.now 0 cycles) states
        × (text.items ≡ level_lines m.now.outputs (output_rows (length m.now.outputs) states))) }
{
    let rows = simulate(alloc, m, times, cycles)?;
    level_lines(alloc, m.outputs(), &rows)
}

/// Simulates the module of a file in the first cycles after reset, where each input rises at its time: for each output a
/// line of its name, a space and a digit for each cycle, 0 for low and 1 for high. Where the number of times is another
/// than that of the inputs, the fault holds the latter.
pub fn sim(alloc: Global, bytes: &[u8], cycles: u32, times: &[Time]) -> Result<Vec<u8>, JobError>
    requires short { length bytes.now ≤ 16777216 }
    requires some_cycles { 1 ≤ cycles }
    requires few_cycles { cycles ≤ 100000 }
    ensures text { IfOk result (λ text. IsLevelText cycles times.now bytes.now text.items) }
    ensures cause { IfErr result (FailsBy (IsNotSimulated times.now bytes.now)) }
{
    laws::one_history();
    let m = module_for(alloc, bytes, times)?;
    m.rules();
    Ok(lines_of(alloc, &m, times, cycles)?)
}
