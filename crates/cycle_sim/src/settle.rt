ghost use Rattle.std.specs.Prelude.{◌≡◌, ◌≤◌, ◌+◌, ◌*◌, length};
ghost use Rattle.circuit.specs.Meaning.{HasLevels, IsSettled};
ghost use Rattle.cycle_sim.specs.Operations.{IsPlan};
ghost use Rattle.levels.specs.Levels.{HasAllLevels};
ghost use Rattle.levels.specs.Marked.{NoneFrom};
ghost use Rattle.levels.specs.Operands.{AreReaders};
ghost use Rattle.marked_steps.specs.UpToDate.{IsUpToDate};

use crate::pass::settle_plainly;
use crate::program::Program;
use circuit::Module;
use levels::{Levels, Marks, Readers};
use marked_steps::{activate, most_marked};

// Gives the targets of so many marked assigns their expressions' levels, in order. Answers the first assign that is
// still marked, or a number past the assigns.
fn settle_marked(
    m: &Module,
    readers: &Readers,
    levels: &mut Levels,
    marks: &mut Marks,
    most: usize,
) -> usize
    requires levels { HasLevels m.now levels.old }
    requires readers { AreReaders m.now readers.now.starts.items readers.now.lists }
    requires room { length m.now.assigns + length m.now.regs ≤ 64 * length marks.old }
    requires up_to_date { IsUpToDate m.now levels.old marks.old }
    ensures none { NoneFrom marks.new 0 result }
    ensures up_to_date { IsUpToDate m.now levels.new marks.new }
    ensures levels { HasLevels m.now levels.new }
    ensures inputs { levels.new.inputs ≡ levels.old.inputs }
    ensures regs { levels.new.regs ≡ levels.old.regs }
    ensures room { length marks.new ≡ length marks.old }
{
    let count = m.assigns().len();
    let mut left = most;
    let mut k = marks.first(0);
    while k < count && left > 0 {
        activate(m, readers, levels, marks, k);
        left -= 1;
        k = marks.first(k + 1);
    }
    k
}

/// Gives each wire and output its expression's level, where only marked assigns may lack it. Marks cost more than a
/// plain pass where many assigns are marked, or come to be, or where much changed at the last plain pass (`changing`), so then a
/// plain pass is made. Answers whether much changed at it.
pub fn settle(
    m: &Module,
    readers: &Readers,
    program: &mut Program,
    levels: &mut Levels,
    marks: &mut Marks,
    changing: bool,
) -> bool
    requires plan { IsPlan m.now program.old }
    requires levels { HasAllLevels m.now levels.old }
    requires readers { AreReaders m.now readers.now.starts.items readers.now.lists }
    requires room { length m.now.assigns + length m.now.regs ≤ 64 * length marks.old }
    requires up_to_date { IsUpToDate m.now levels.old marks.old }
    ensures same_plan { program.new ≡ program.old }
    ensures settled { IsSettled m.now levels.new }
    ensures up_to_date { IsUpToDate m.now levels.new marks.new }
    ensures inputs { levels.new.inputs ≡ levels.old.inputs }
    ensures regs { levels.new.regs ≡ levels.old.regs }
    ensures room { length marks.new ≡ length marks.old }
{
    let count = m.assigns().len();
    let most = if changing { 0 } else { most_marked(m, marks) };
    let next = settle_marked(m, readers, levels, marks, most);
    next < count && settle_plainly(m, program, levels, marks)
}
