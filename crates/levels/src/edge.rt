ghost use Rattle.std.specs.Prelude.{◌≡◌, length, map};
ghost use Rattle.circuit.specs.Meaning as spec;
ghost use Rattle.circuit.specs.Meaning.{rows_after};
ghost use Rattle.levels.specs.Levels.{HasAllLevels, all_shifted};

use crate::levels::Levels;
use circuit::Module;

// Puts the level of each register's `next` into this room.
fn next_levels(m: &Module, levels: &Levels, firsts: &mut [bool])
    requires { length firsts.old ≡ length m.now.regs }
    ensures { firsts.new ≡ map (λ r. spec.level levels.now r.next) m.now.regs }
{
    for (place, reg) in m.regs().iter().enumerate() {
        firsts[place] = levels.level(reg.next());
    }
}

// Each register takes its first level. Answers how many registers change.
fn shift_all(levels: &mut Levels, firsts: &[bool]) -> usize
    requires { length firsts.now ≡ length levels.old.regs }
    ensures state { levels.new ≡ record levels.old { regs = all_shifted firsts.now levels.old.regs } }
    ensures still { result ≡ 0 → levels.new ≡ levels.old }
{
    let mut changed = 0;
    for (reg, first) in firsts.iter().enumerate() {
        if levels.changes(reg, *first) {
            changed += 1;
        }
        levels.shift(reg, *first);
    }
    changed
}

/// A clock edge: all registers take their next levels at once. `firsts` is room for a level of each. Answers how many registers
/// change.
pub fn clock_edge(m: &Module, levels: &mut Levels, firsts: &mut [bool]) -> usize
    requires levels { HasAllLevels m.now levels.old }
    requires firsts { length firsts.old ≡ length m.now.regs }
    ensures state { levels.new ≡ record levels.old { regs = rows_after levels.old m.now.regs levels.old.regs } }
    ensures still { result ≡ 0 → levels.new ≡ levels.old }
{
    next_levels(m, levels, firsts);
    shift_all(levels, firsts)
}
