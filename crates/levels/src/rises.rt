ghost use Rattle.std.specs.Prelude.{◌≡◌, ◌<◌, ◌≤◌, ℕ};
ghost use Rattle.rl_time.specs.Time as times;
ghost use Rattle.circuit.specs.Meaning.{levels_at};

use rl_time::Time;

/// The first cycle after this one in which an input rises, or `cycles` if that is less.
pub fn next_rise(rises: &[Time], cycle: u32, cycles: u32) -> u32
    requires { cycle < cycles }
    ensures later { cycle < result }
    ensures within { result ≤ cycles }
    ensures inputs { (t : ℕ) → cycle ≤ t → t < result → levels_at rises.now t ≡ levels_at rises.now cycle }
{
    let mut next = cycles;
    for rise in rises {
        next = rise_between(*rise, cycle, next);
    }
    next
}

// The cycle of a rise that is after a cycle and before the next one, else the next one.
fn rise_between(rise: Time, cycle: u32, next: u32) -> u32
    requires { cycle < next }
    ensures later { cycle < result }
    ensures within { result ≤ next }
    ensures level { (t : ℕ) → cycle ≤ t → t < result → times.has_risen rise t ≡ times.has_risen rise cycle }
{
    match rise {
        Time::At(start) if u64::from(cycle) < start && start < u64::from(next) => start as u32,
        _ => next,
    }
}
