ghost use Rattle.std.specs.Prelude.{◌≡◌, ◌≤◌, ◌+◌, ◌*◌, true, false, length};
ghost use Rattle.circuit.specs.Meaning.{HasLevels, IsSettled};
ghost use Rattle.levels.specs.Operands.{AreReaders};
ghost use Rattle.marked_steps.specs.UpToDate.{IsUpToDate};
ghost use Rattle.event_sim.specs.Orders.{numbered_order};
ghost use Rattle.event_sim.specs.Passes.{ArePasses, IsPass};

use crate::orders::begins;
use crate::stretches::{fall, rise};
use circuit::Module;
use levels::laws::few_items;
use levels::{Levels, Marks, Readers};

// A pass in a numbered order. Answers whether an activation changes a level.
fn pass(m: &Module, readers: &Readers, levels: &mut Levels, marks: &mut Marks, order: u64) -> bool
    requires levels { HasLevels m.now levels.old }
    requires readers { AreReaders m.now readers.now.starts.items readers.now.lists }
    requires room { length m.now.assigns + length m.now.regs ≤ 64 * length marks.old }
    requires up_to_date { IsUpToDate m.now levels.old marks.old }
    ensures pass { IsPass m.now (numbered_order (length m.now.assigns) order) levels.old levels.new result }
    ensures up_to_date { IsUpToDate m.now levels.new marks.new }
    ensures room { length marks.new ≡ length marks.old }
{
    m.rules();
    if order == 1 {
        return fall(m, readers, levels, marks);
    }
    let count = m.assigns().len();
    let begin = begins(count, order);
    let high = rise(m, readers, levels, marks, begin, count);
    let low = rise(m, readers, levels, marks, 0, begin);
    high || low
}

/// Passes in a numbered order until one changes nothing. Answers the number of activations, also of those that would change nothing
/// and aren't made.
pub fn run_passes(
    m: &Module,
    readers: &Readers,
    levels: &mut Levels,
    marks: &mut Marks,
    order: u64,
) -> u64
    requires levels { HasLevels m.now levels.old }
    requires readers { AreReaders m.now readers.now.starts.items readers.now.lists }
    requires room { length m.now.assigns + length m.now.regs ≤ 64 * length marks.old }
    requires up_to_date { IsUpToDate m.now levels.old marks.old }
    ensures passes { ArePasses m.now (numbered_order (length m.now.assigns) order) levels.old levels.new result }
    ensures settled { IsSettled m.now levels.new }
    ensures few { result ≤ 17196781632 }
    ensures up_to_date { IsUpToDate m.now levels.new marks.new }
    ensures room { length marks.new ≡ length marks.old }
{
    m.rules();
    few_items(m);
    let count = m.assigns().len();
    let mut activations = 0;
    for _ in 0..count {
        activations += count as u64;
        if !pass(m, readers, levels, marks, order) {
            return activations;
        }
    }
    pass(m, readers, levels, marks, order);
    activations + count as u64
}

/// Whether each wire and output has its expression's level.
pub fn is_settled(m: &Module, levels: &Levels) -> bool
    requires { HasLevels m.now levels.now }
    ensures yes { result ≡ true → IsSettled m.now levels.now }
    ensures no { result ≡ false → IsSettled m.now levels.now → ⊥ }
{
    for assign in m.assigns() {
        if levels.at(assign.target()) != levels.level(assign.bit()) {
            return false;
        }
    }
    true
}
