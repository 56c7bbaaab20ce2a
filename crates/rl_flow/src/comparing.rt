//! A module's outputs, cycle by cycle, beside the times that are expected of them.
ghost use Rattle.std.specs.Prelude.{◌≡◌, ◌≤◌, ◌<◌, ◌&&◌, ℕ, List, true, false, length, replicate, slice_index_or, IfOk, IsSome};
ghost use Rattle.std.proofs.Math.Bool.{beq};
ghost use Rattle.rl_time.specs.Time as times;
ghost use Rattle.net_model.specs.Value.{time_at};
ghost use Rattle.circuit.specs.Meaning.{State, IsHistory, levels_at, levels_from};
ghost use Rattle.cycle_sim.specs.Standing.{output_level};
ghost use Rattle.rl_flow.specs.Compared.{count_below, agrees, is_high};

use circuit::Module;
use cycle_sim::{Sim, laws};
use levels::{has_risen, set_levels};
use rl_time::{NoMemory, Time};
use std::alloc::Global;

/// What a simulation shows.
#[derive(Clone, Copy, Debug)]
pub struct Compared {
    /// The outputs that are high in the last cycle.
    pub risen: u32,
    /// The outputs that have the level of their time in each cycle.
    pub agree: u32,
}

/// Simulates a module for so many cycles, with inputs that rise at these times, and compares each output's level in each
/// cycle with that of a wire that rises at its expected time.
pub fn compare(
    alloc: Global,
    m: &Module,
    rises: &[Time],
    expected: &[Time],
    cycles: u32,
) -> Result<Compared, NoMemory>
    requires one_for_each_input { length rises.now ≡ length m.now.inputs }
    requires one_for_each_output { length expected.now ≡ length m.now.outputs }
    requires some_cycles { 1 ≤ cycles }
    ensures { IfOk result (λ shown. (states : List State) × IsHistory m.now (levels_from rises.now 0 cycles) states
        × (shown.risen ≡ count_below (is_high states) (length m.now.outputs))
        × (shown.agree ≡ count_below (agrees states expected.now) (length m.now.outputs))) }
{
    laws::histories_grow_at_the_end();
    laws::levels_grow_at_the_end();
    m.rules();
    let mut levels = same_levels(alloc, rises.len(), false)?;
    let mut agree = same_levels(alloc, expected.len(), true)?;
    let mut sim = Sim::new(alloc, m)?;
    for cycle in 0..cycles {
        set_levels(&mut levels, rises, u64::from(cycle));
        sim.step(&levels);
        compare_levels(&sim, &mut agree, expected, u64::from(cycle));
    }
    Ok(Compared {
        risen: count_high(&sim, m.outputs().len() as u32),
        agree: count_marks(&agree),
    })
}

/// So many equal levels.
fn same_levels(alloc: Global, count: usize, level: bool) -> Result<Vec<bool>, NoMemory>
    ensures { IfOk result (λ levels. levels.items ≡ replicate count level) }
{
    match vec![in alloc; level; count] {
        Ok(levels) => Ok(levels),
        Err(_) => Err(NoMemory),
    }
}

/// Whether an output was right so far, and has the level of its time in this cycle.
fn stays_right(sim: &Sim, was: bool, out: u32, time: Time, cycle: u64) -> bool
    requires in_a_cycle { IsSome sim.now.state }
    requires an_output { out < length sim.now.circuit.outputs }
    ensures { result ≡ (was && beq (output_level sim.now.state out) (times.has_risen time cycle)) }
{
    was && sim.level(out) == has_risen(time, cycle)
}

/// Takes the mark of each output away whose level in this cycle isn't that of its time.
fn compare_levels(sim: &Sim, marks: &mut [bool], expected: &[Time], cycle: u64)
    requires in_a_cycle { IsSome sim.now.state }
    requires one_for_each_output { length expected.now ≡ length sim.now.circuit.outputs }
    requires one_mark_each { length marks.old ≡ length expected.now }
    requires few { length expected.now ≤ 64 }
    ensures marks { (out : ℕ) → out < length expected.now → slice_index_or marks.new out false
        ≡ (slice_index_or marks.old out false && beq (output_level sim.now.state out) (times.has_risen (time_at expected.now out) cycle)) }
    ensures count { length marks.new ≡ length marks.old }
{
    for (out, time) in expected.iter().enumerate() {
        marks[out] = stays_right(sim, marks[out], out as u32, *time, cycle);
    }
}

/// How many of the first outputs are high.
fn count_high(sim: &Sim, outputs: u32) -> u32
    requires in_a_cycle { IsSome sim.now.state }
    requires within { outputs ≤ length sim.now.circuit.outputs }
    ensures { result ≡ count_below (output_level sim.now.state) outputs }
{
    let mut count = 0;
    for out in 0..outputs {
        if sim.level(out) {
            count += 1;
        }
    }
    count
}

/// How many of the marks are set.
fn count_marks(marks: &[bool]) -> u32
    requires few { length marks.now ≤ 64 }
    ensures { result ≡ count_below (λ place. slice_index_or marks.now place false) (length marks.now) }
{
    let mut count = 0;
    for mark in marks {
        if *mark {
            count += 1;
        }
    }
    count
}
