ghost use Rattle.std.specs.Prelude.{◌≡◌, ◌≤◌, ◌++◌, ℕ, List, length, OnOk, IfOk, IfErr};
ghost use Rattle.circuit.specs.Meaning.{State, IsHistory, levels_from};
ghost use Rattle.levels.specs.Digits.{output_rows};
ghost use Rattle.event_sim.specs.Orders.{numbered_order};
ghost use Rattle.event_sim.specs.Runs.{IsRun};
ghost use Rattle.rl_jobs.specs.Sources.{FailsBy};
ghost use Rattle.rl_flow.specs.Activations.{activations_line, IsOrderText};
ghost use Rattle.rl_flow.specs.Levels.{level_lines, IsNotSimulated};

use crate::sim::{level_lines, module_for};
use event_sim::simulate;
use itoa::Buffer;
use rl_jobs::JobError;
use rl_time::{NoMemory, Time};
use std::alloc::Global;
use verilog_text::{Module, laws};

/// Adds the line of a number of activations at the end.
fn put_activations(text: &mut Vec<u8>, count: u64) -> Result<(), NoMemory>
    ensures { OnOk result (text.new.items ≡ text.old.items ++ activations_line count) }
{
    let mut buffer = Buffer::new();
    text.extend_from_slice(b"activations ")?;
    text.extend_from_slice(buffer.format(count).as_bytes())?;
    text.extend_from_slice(b"\n")?;
    Ok(())
}

/// The lines of a module's outputs over the first cycles, and that of the activations of the run in a numbered order.
fn order_lines_of(
    alloc: Global,
    m: &Module,
    times: &[Time],
    cycles: u32,
    order: u64,
) -> Result<Vec<u8>, NoMemory>
    requires one_for_each_input { length times.now ≡ length m.now.inputs }
    requires few_cycles { cycles ≤ 100000 }
    ensures { IfOk result (λ text. (states : List State) × (count : ℕ) × IsHistory m.now (levels_from times.now 0 cycles) states
        × IsRun m.now (numbered_order (length m.now.assigns) order) (levels_from times.now 0 cycles) states count
        × (text.items ≡ level_lines m.now.outputs (output_rows (length m.now.outputs) states) ++ activations_line count)) }
{
    let run = simulate(alloc, m, times, cycles, order)?;
    let mut text = level_lines(alloc, m.outputs(), &run.rows)?;
    put_activations(&mut text, run.activations)?;
    Ok(text)
}

/// Simulates the module of a file as `sim` does, by activations of its assigns in a numbered order. After the lines of the outputs is
/// one with the number of activations.
pub fn sim_in_order(
    alloc: Global,
    bytes: &[u8],
    cycles: u32,
    times: &[Time],
    order: u64,
) -> Result<Vec<u8>, JobError>
    requires short { length bytes.now ≤ 16777216 }
    requires few_cycles { cycles ≤ 100000 }
    ensures text { IfOk result (λ text. IsOrderText cycles times.now order bytes.now text.items) }
    ensures cause { IfErr result (FailsBy (IsNotSimulated times.now bytes.now)) }
{
    laws::one_history();
    let m = module_for(alloc, bytes, times)?;
    m.rules();
    Ok(order_lines_of(alloc, &m, times, cycles, order)?)
}
