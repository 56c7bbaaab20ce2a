ghost use Rattle.std.specs.Prelude.{◌≡◌, ◌≤◌, ◌<◌, ◌+◌, ℕ, false, List, length, map, IfOk};
ghost use Rattle.circuit.specs.Meaning.{State, IsHistory, levels_at, levels_from};
ghost use Rattle.levels.specs.Digits.{output_rows};
ghost use Rattle.event_sim.specs.Orders.{numbered_order};
ghost use Rattle.event_sim.specs.Runs.{IsRun};

use crate::events::Events;
use crate::laws;
use circuit::Module;
use levels::{all_low, empty_rows, next_rise, push_digits, set_levels};
use rl_time::{NoMemory, Time};
use std::alloc::Global;

/// For each output of a module a row of digits `0` or `1`, one a cycle, and how many activations there were.
#[derive(Drop)]
pub struct Run {
    pub rows: Vec<Vec<u8>>,
    pub activations: u64,
}

/// The levels of each output of a module in the first cycles after reset, where each input rises at its time and stays high, and the
/// number of activations of a run in a numbered order. There is one time for each input. In each cycle passes are made until one
/// changes nothing. It takes all its memory before cycle 0. Cycles in which nothing changes are taken together.
pub fn simulate(
    alloc: Global,
    m: &Module,
    rises: &[Time],
    cycles: u32,
    order: u64,
) -> Result<Run, NoMemory>
    requires one_for_each { length rises.now ≡ length m.now.inputs }
    requires few_cycles { cycles ≤ 100000 }
    ensures { IfOk result (λ run. (states : List State) × IsHistory m.now (levels_from rises.now 0 cycles) states
        × (map (λ row. row.items) run.rows.items ≡ output_rows (length m.now.outputs) states)
        × IsRun m.now (numbered_order (length m.now.assigns) order) (levels_from rises.now 0 cycles) states run.activations) }
{
    laws::runs_are_histories();
    m.rules();
    let mut rows = empty_rows(alloc, m.outputs().len(), cycles as usize)?;
    let mut inputs = all_low(alloc, rises.len())?;
    let mut events = Events::new(alloc, m)?;
    let mut activations: u64 = 0;
    let mut cycle = 0;
    while cycle < cycles {
        set_levels(&mut inputs, rises, u64::from(cycle));
        let changes = events.edge_changes(&inputs);
        let each = events.run_passes(order);
        let next = next_cycle(changes, rises, cycle, cycles);
        activations += each * u64::from(next - cycle);
        push_digits(events.outs(), &mut rows, next - cycle);
        cycle = next;
    }
    Ok(Run { rows, activations })
}

// The first cycle after this one in which a level may change, or `cycles` if that is less.
fn next_cycle(changes: bool, rises: &[Time], cycle: u32, cycles: u32) -> u32
    requires { cycle < cycles }
    ensures later { cycle < result }
    ensures within { result ≤ cycles }
    ensures inputs { (t : ℕ) → cycle ≤ t → t < result → levels_at rises.now t ≡ levels_at rises.now cycle }
    ensures still { cycle + 1 < result → changes ≡ false }
{
    if changes {
        cycle + 1
    } else {
        next_rise(rises, cycle, cycles)
    }
}
