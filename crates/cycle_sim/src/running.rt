ghost use Rattle.std.specs.Prelude.{◌≡◌, ◌<◌, ◌≤◌, ◌+◌, ◌++◌, ℕ, Some, [], List, length, map, replicate, vec_len, vec_capacity, All, IfOk, IsSome};
ghost use Rattle.rl_time.specs.Time as times;
ghost use Rattle.circuit.specs.Meaning.{State, IsNext, IsHistory, levels_at, levels_from};
ghost use Rattle.levels.specs.Digits.{output_rows};

use crate::laws;
use crate::sim::Sim;
use circuit::Module;
use levels::{all_low, empty_rows, next_rise, push_digits, set_levels};
use rl_time::{NoMemory, Time};
use std::alloc::Global;

/// The levels of each output of a module in the first cycles after reset, where each input rises at its time and
/// stays high: for each output in order one digit `0` or `1` a cycle, from cycle 0 on. There is one time for each
/// input.
///
/// It takes all its memory before cycle 0, and time in proportion to the module, to the levels that change, and to the digits. Cycles
/// in which nothing changes are taken together.
pub fn simulate(
    alloc: Global,
    m: &Module,
    rises: &[Time],
    cycles: u32,
) -> Result<Vec<Vec<u8>>, NoMemory>
    requires { length rises.now ≡ length m.now.inputs }
    ensures { IfOk result (λ rows. (states : List State) × IsHistory m.now (levels_from rises.now 0 cycles) states
        × (map (λ row. row.items) rows.items ≡ output_rows (length m.now.outputs) states)) }
{
    laws::histories_grow_at_the_end();
    m.rules();
    let mut rows = empty_rows(alloc, m.outputs().len(), cycles as usize)?;
    let mut levels = all_low(alloc, rises.len())?;
    let mut sim = Sim::new(alloc, m)?;
    let mut cycle = 0;
    while cycle < cycles {
        set_levels(&mut levels, rises, u64::from(cycle));
        sim.step(&levels);
        let next = next_change(&sim, rises, cycle, cycles);
        push_digits(sim.outs(), &mut rows, next - cycle);
        cycle = next;
    }
    Ok(rows)
}

/// The first cycle after this one in which a level may change, or `cycles` if that is less.
fn next_change(sim: &Sim, rises: &[Time], cycle: u32, cycles: u32) -> u32
    requires { cycle < cycles }
    ensures later { cycle < result }
    ensures within { result ≤ cycles }
    ensures inputs { (t : ℕ) → cycle ≤ t → t < result → levels_at rises.now t ≡ levels_at rises.now cycle }
    ensures quiet { cycle + 1 < result → (s : State) → sim.now.state ≡ Some s → IsNext sim.now.circuit s s s.inputs }
{
    if sim.is_quiet() {
        next_rise(rises, cycle, cycles)
    } else {
        cycle + 1
    }
}
