ghost use Rattle.std.specs.Prelude.{◌≡◌, ◌≢◌, ◌⊎◌, ◌≤◌, ◌<◌, ◌+◌, ◌*◌, ℕ, true, false, length};
ghost use Rattle.circuit.specs.declared.bit.Target.{Target};
ghost use Rattle.circuit.specs.Meaning as spec;
ghost use Rattle.circuit.specs.Meaning.{HasLevels};
ghost use Rattle.levels.specs.Marked.{mark_at, IsUnmarked, HasMore, HasAllAbove, NoMoreUpTo};
ghost use Rattle.levels.specs.Operands.{AreReaders, list_at, wire_place};
ghost use Rattle.marked_steps.specs.UpToDate.{IsUpToDate, IsSeen};

use circuit::{Module, Target};
use levels::{Levels, Marks, Readers};

/// An activation of assign k, without marks. Answers whether it changes a level.
pub fn activate_plainly(m: &Module, levels: &mut Levels, k: usize) -> bool
    requires an_assign { k < length m.now.assigns }
    requires levels { HasLevels m.now levels.old }
    ensures state { levels.new ≡ spec.activate m.now levels.old k }
    ensures same { result ≡ false → levels.new ≡ levels.old }
    ensures changed { result ≡ true → levels.new ≢ levels.old }
{
    m.rules();
    let assign = &m.assigns()[k];
    let target = assign.target();
    let level = levels.level(assign.bit());
    let before = levels.at(target);
    levels.put(target, level);
    level != before
}

/// So many activations of marked assigns cost less than all assigns without marks: none, where many assigns are marked.
pub fn most_marked(m: &Module, marks: &Marks) -> usize {
    let count = m.assigns().len();
    if marks.count_to(count) > count / 4 {
        0
    } else {
        count / 8 + 1
    }
}

// Marks the items above assign k that name its target, if the target's level changes.
fn mark_change(
    m: &Module,
    readers: &Readers,
    marks: &mut Marks,
    target: Target,
    k: usize,
    before: bool,
    level: bool,
)
    ensures more { HasMore marks.old marks.new }
    ensures below { NoMoreUpTo marks.old marks.new k }
    ensures seen { (w : ℕ) → target ≡ Target.Wire w →
        (before ≡ level) ⊎ HasAllAbove marks.new k (list_at readers.now.lists (wire_place m.now w)) }
{
    m.rules();
    if before == level {
        return;
    }
    match target {
        Target::Wire(w) => readers.mark_above(m.inputs().len() + w as usize, k, marks),
        Target::Out(_) => {}
    }
}

/// An activation of assign k, which loses its mark, while the items that see a change get one. Answers whether it changes a level.
pub fn activate(
    m: &Module,
    readers: &Readers,
    levels: &mut Levels,
    marks: &mut Marks,
    k: usize,
) -> bool
    requires an_assign { k < length m.now.assigns }
    requires levels { HasLevels m.now levels.old }
    requires readers { AreReaders m.now readers.now.starts.items readers.now.lists }
    requires room { length m.now.assigns + length m.now.regs ≤ 64 * length marks.old }
    requires up_to_date { IsUpToDate m.now levels.old marks.old }
    ensures state { levels.new ≡ spec.activate m.now levels.old k }
    ensures same { result ≡ false → levels.new ≡ levels.old }
    ensures changed { result ≡ true → levels.new ≢ levels.old }
    ensures up_to_date { IsUpToDate m.now levels.new marks.new }
    ensures levels { HasLevels m.now levels.new }
    ensures inputs { levels.new.inputs ≡ levels.old.inputs }
    ensures regs { levels.new.regs ≡ levels.old.regs }
    ensures room { length marks.new ≡ length marks.old }
    ensures cleared { IsUnmarked marks.new k }
    ensures below { (i : ℕ) → i < k → IsUnmarked marks.old i → IsUnmarked marks.new i }
{
    m.rules();
    let assign = &m.assigns()[k];
    let target = assign.target();
    let level = levels.level(assign.bit());
    let before = levels.at(target);
    marks.clear(k);
    levels.put(target, level);
    mark_change(m, readers, marks, target, k, before, level);
    before != level
}
