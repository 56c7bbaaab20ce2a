ghost use Rattle.std.specs.Prelude.{◌≡◌, ◌≤◌, ◌+◌, ◌*◌, length};
ghost use Rattle.circuit.specs.Meaning.{IsSettled};
ghost use Rattle.levels.specs.Levels.{HasAllLevels};
ghost use Rattle.cycle_sim.specs.Operations.{IsPlan};
ghost use Rattle.marked_steps.specs.UpToDate.{IsUpToDate};

use crate::program::Program;
use circuit::{Module, laws};
use levels::{Levels, Marks};

/// Gives each wire and output its expression's level, by the operations of all assigns. Answers how many levels change.
fn settle_all(m: &Module, program: &mut Program, levels: &mut Levels) -> usize
    requires plan { IsPlan m.now program.old }
    requires levels { HasAllLevels m.now levels.old }
    ensures same_plan { program.new ≡ program.old }
    ensures settled { IsSettled m.now levels.new }
    ensures inputs { levels.new.inputs ≡ levels.old.inputs }
    ensures regs { levels.new.regs ≡ levels.old.regs }
{
    m.rules();
    laws::settles_in_order();
    program.run(m, levels)
}

/// The same, where it isn't known which levels of the registers' operands changed: all registers are marked. Answers whether many
/// levels change, so that a plain pass is likely to be the cheaper one in the next cycle too.
pub fn settle_plainly(
    m: &Module,
    program: &mut Program,
    levels: &mut Levels,
    marks: &mut Marks,
) -> bool
    requires plan { IsPlan m.now program.old }
    requires levels { HasAllLevels m.now levels.old }
    requires room { length m.now.assigns + length m.now.regs ≤ 64 * length marks.old }
    ensures same_plan { program.new ≡ program.old }
    ensures settled { IsSettled m.now levels.new }
    ensures up_to_date { IsUpToDate m.now levels.new marks.new }
    ensures inputs { levels.new.inputs ≡ levels.old.inputs }
    ensures regs { levels.new.regs ≡ levels.old.regs }
    ensures room { length marks.new ≡ length marks.old }
{
    let changed = settle_all(m, program, levels);
    marks.fill_from(m.assigns().len());
    are_many(m, changed)
}

// Whether a plain pass is cheaper than marks where so many levels change: over one in eight.
fn are_many(m: &Module, changed: usize) -> bool {
    changed > m.assigns().len() / 8
}
