ghost use Rattle.std.specs.Prelude.{◌≡◌, ◌≤◌, ◌+◌, ◌++◌, [], length, map, replicate, vec_len, vec_capacity, All, IfOk};
ghost use Rattle.rl_time.specs.Time as times;
ghost use Rattle.circuit.specs.Meaning.{levels_at};
ghost use Rattle.levels.specs.Digits as spec;
ghost use Rattle.levels.specs.Digits.{with_digits};

use rl_time::{NoMemory, Time};
use std::alloc::Global;

/// `count` empty rows, each with room for a digit a cycle.
pub fn empty_rows(alloc: Global, count: usize, cycles: usize) -> Result<Vec<Vec<u8>>, NoMemory>
    ensures empty { IfOk result (λ rows. map (λ row. row.items) rows.items ≡ replicate count []) }
    ensures capacity { IfOk result (λ rows. map (λ row. vec_capacity row) rows.items ≡ replicate count cycles) }
{
    let mut rows = Vec::with_capacity(alloc, count)?;
    for _ in 0..count {
        rows.push(Vec::with_capacity(alloc, cycles)?)?;
    }
    Ok(rows)
}

/// Puts the levels of inputs that rise at these times in a cycle into this room.
pub fn set_levels(levels: &mut [bool], rises: &[Time], cycle: u64)
    requires { length levels.old ≡ length rises.now }
    ensures { levels.new ≡ levels_at rises.now cycle }
{
    for (place, rise) in rises.iter().enumerate() {
        levels[place] = has_risen(*rise, cycle);
    }
}

/// Whether a wire that rises at this time is high in a cycle.
pub fn has_risen(rise: Time, cycle: u64) -> bool
    ensures { result ≡ times.has_risen rise cycle }
{
    match rise {
        Time::At(start) => start <= cycle,
        Time::Never => false,
    }
}

/// Adds each output's digit to its row, once for each of so many cycles.
pub fn push_digits(outs: &[bool], rows: &mut [Vec<u8>], count: u32)
    requires one_for_each_output { length rows.old ≡ length outs.now }
    requires room { All (λ row. vec_len row + count ≤ vec_capacity row) rows.old }
    ensures digits { map (λ row. row.items) rows.new ≡ with_digits outs.now count 0 (map (λ row. row.items) rows.old) }
    ensures capacity { map (λ row. vec_capacity row) rows.new ≡ map (λ row. vec_capacity row) rows.old }
{
    for (out, level) in outs.iter().enumerate() {
        push_times(&mut rows[out], digit(*level), count);
    }
}

// Adds a digit so many times.
fn push_times(row: &mut Vec<u8>, digit: u8, count: u32)
    requires { vec_len row.old + count ≤ vec_capacity row.old }
    ensures digits { row.new.items ≡ row.old.items ++ replicate count digit }
    ensures capacity { vec_capacity row.new ≡ vec_capacity row.old }
{
    for _ in 0..count {
        row.push_reserved(digit);
    }
}

// The digit `1` for high, `0` for low.
fn digit(level: bool) -> u8
    ensures { result ≡ spec.digit level }
{
    if level { b'1' } else { b'0' }
}
