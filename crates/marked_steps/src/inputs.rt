ghost use Rattle.std.specs.Prelude.{◌≡◌, ◌≢◌, ◌⊎◌, ◌≤◌, ◌<◌, ◌+◌, ◌*◌, ℕ, length, slice_set};
ghost use Rattle.levels.specs.Marked.{HasMore, HasAll};
ghost use Rattle.levels.specs.Operands.{AreReaders, list_at};
ghost use Rattle.marked_steps.specs.UpToDate.{IsUpToDate, IsSeen};

use circuit::Module;
use levels::{Levels, Marks, Readers};

// Marks the items on the list of a place, if its level changes.
fn mark_place(readers: &Readers, marks: &mut Marks, place: usize, before: bool, level: bool)
    ensures more { HasMore marks.old marks.new }
    ensures seen { (before ≡ level) ⊎ HasAll marks.new (list_at readers.now.lists place) }
{
    if before != level {
        readers.mark_all(place, marks);
    }
}

// Gives an input this level, and marks the items that name it if it changes.
fn set_input(
    m: &Module,
    readers: &Readers,
    levels: &mut Levels,
    marks: &mut Marks,
    place: usize,
    level: bool,
)
    requires an_input { place < length levels.old.inputs }
    requires readers { AreReaders m.now readers.now.starts.items readers.now.lists }
    requires room { length m.now.assigns + length m.now.regs ≤ 64 * length marks.old }
    ensures state { levels.new ≡ record levels.old { inputs = slice_set levels.old.inputs place level } }
    ensures more { HasMore marks.old marks.new }
    ensures seen { IsSeen m.now levels.old levels.new marks.new }
{
    let before = levels.input(place);
    levels.set_input(place, level);
    mark_place(readers, marks, place, before, level);
}

/// Gives the inputs these levels.
pub fn set_inputs(
    m: &Module,
    readers: &Readers,
    levels: &mut Levels,
    marks: &mut Marks,
    inputs: &[bool],
)
    requires one_for_each { length inputs.now ≡ length levels.old.inputs }
    requires readers { AreReaders m.now readers.now.starts.items readers.now.lists }
    requires room { length m.now.assigns + length m.now.regs ≤ 64 * length marks.old }
    requires up_to_date { IsUpToDate m.now levels.old marks.old }
    ensures state { levels.new ≡ record levels.old { inputs = inputs.now } }
    ensures room { length marks.new ≡ length marks.old }
    ensures up_to_date { IsUpToDate m.now levels.new marks.new }
{
    for (place, level) in inputs.iter().enumerate() {
        set_input(m, readers, levels, marks, place, *level);
    }
}
