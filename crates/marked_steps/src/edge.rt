ghost use Rattle.std.specs.Prelude.{◌≡◌, ◌≢◌, ◌⊎◌, ◌≤◌, ◌<◌, ◌+◌, ◌*◌, ◌∷◌, [], ℕ, false, length, replicate, slice_get, slice_index_or, slice_set, Some};
ghost use Rattle.circuit.specs.Circuit.{Register};
ghost use Rattle.circuit.specs.Meaning as spec;
ghost use Rattle.circuit.specs.Meaning.{rows_after};
ghost use Rattle.levels.specs.Levels.{HasAllLevels, shifted};
ghost use Rattle.levels.specs.Marked.{mark_at, IsMarked, IsUnmarked, HasMore, HasAll};
ghost use Rattle.levels.specs.Operands.{Bit, AreReaders, HasTaps, list_at, place};
ghost use Rattle.marked_steps.specs.UpToDate.{IsUpToDate, IsSeen};
ghost use Rattle.marked_steps.specs.Shifts.{AreSeen, StaysSame};

use circuit::Module;
use levels::laws::few_items;
use levels::{Levels, Marks, Readers};

// Marks the items that name a bit of a register that a shift changes, and the register if there is one. Answers whether there is one.
fn mark_changes(
    m: &Module,
    readers: &Readers,
    levels: &Levels,
    marks: &mut Marks,
    reg: usize,
    first: bool,
) -> bool
    requires a_register { reg < length m.now.regs }
    requires rows { length levels.now.regs ≡ length m.now.regs }
    requires taps { HasTaps readers.now.lists readers.now.tapped }
    requires room { length m.now.assigns + length m.now.regs ≤ 64 * length marks.old }
    ensures more { HasMore marks.old marks.new }
    ensures seen { let row = slice_index_or levels.now.regs reg [] in
        AreSeen m.now readers.now.starts.items readers.now.lists marks.new reg first row (length row) }
    ensures quiet { let row = slice_index_or levels.now.regs reg [] in
        IsMarked marks.new (length m.now.assigns + reg) ⊎ StaysSame first row (length row) }
    ensures still { let row = slice_index_or levels.now.regs reg [] in result ≡ false → StaysSame first row (length row) }
{
    let _room = marks.room();
    let width = levels.width(reg) as usize;
    let base = m.inputs().len() + m.wires().len() + readers.start(reg) as usize;
    let own = m.assigns().len() + reg;
    let mut k = levels.change(reg, first, 0);
    let changes = k < width;
    while k < width {
        marks.add(own);
        readers.mark_all(base + k, marks);
        let tap = readers.next_tap(base + k + 1);
        k = levels.change(reg, first, tap - base);
    }
    changes
}

// A register takes this level, and the items that see a change are marked. Answers whether it changes.
fn shift_register(
    m: &Module,
    readers: &Readers,
    levels: &mut Levels,
    marks: &mut Marks,
    reg: usize,
    first: bool,
) -> bool
    requires a_register { reg < length m.now.regs }
    requires rows { length levels.old.regs ≡ length m.now.regs }
    requires taps { HasTaps readers.now.lists readers.now.tapped }
    requires readers { AreReaders m.now readers.now.starts.items readers.now.lists }
    requires room { length m.now.assigns + length m.now.regs ≤ 64 * length marks.old }
    ensures state { let row = slice_index_or levels.old.regs reg [] in
        levels.new ≡ record levels.old { regs = slice_set levels.old.regs reg (shifted first row) } }
    ensures more { HasMore marks.old marks.new }
    ensures seen { IsSeen m.now levels.old levels.new marks.new }
    ensures quiet { let row = slice_index_or levels.old.regs reg [] in
        IsUnmarked marks.new (length m.now.assigns + reg) → shifted first row ≡ replicate (length row) first }
    ensures still { result ≡ false → levels.new ≡ levels.old }
{
    let changes = mark_changes(m, readers, levels, marks, reg, first);
    levels.shift(reg, first);
    changes
}

// Moves the marks of registers into another set, with the level of the `next` of each.
fn take_firsts(
    m: &Module,
    levels: &Levels,
    marks: &mut Marks,
    moving: &mut Marks,
    firsts: &mut [bool],
)
    requires room { length m.now.assigns + length m.now.regs ≤ 64 * length marks.old }
    requires moving_room { length m.now.regs ≤ 64 * length moving.old }
    requires firsts { length firsts.old ≡ length m.now.regs }
    requires none { (r : ℕ) → r < length m.now.regs → IsUnmarked moving.old r }
    ensures room { length marks.new ≡ length marks.old }
    ensures moving_room { length moving.new ≡ length moving.old }
    ensures assigns { (k : ℕ) → k < length m.now.assigns → IsUnmarked marks.new k → IsUnmarked marks.old k }
    ensures moving { (r : ℕ) → r < length m.now.regs → IsUnmarked moving.new r →
        IsUnmarked marks.old (length m.now.assigns + r) }
    ensures firsts { (r : ℕ) (q : Register) → slice_get m.now.regs r ≡ Some q → IsMarked moving.new r →
        slice_index_or firsts.new r false ≡ spec.level levels.now q.next }
{
    let _room = marks.room();
    let regs = m.regs();
    let base = m.assigns().len();
    let end = base + regs.len();
    let mut k = marks.first(base);
    while k < end {
        let reg = k - base;
        firsts[reg] = levels.level(regs[reg].next());
        marks.clear(k);
        moving.mark(reg);
        k = marks.first(k + 1);
    }
}

// A clock edge. Only marked registers can change. Answers how many do.
fn edge_marked(
    m: &Module,
    readers: &Readers,
    levels: &mut Levels,
    marks: &mut Marks,
    moving: &mut Marks,
    firsts: &mut [bool],
) -> usize
    requires levels { HasAllLevels m.now levels.old }
    requires taps { HasTaps readers.now.lists readers.now.tapped }
    requires readers { AreReaders m.now readers.now.starts.items readers.now.lists }
    requires room { length m.now.assigns + length m.now.regs ≤ 64 * length marks.old }
    requires moving_room { length m.now.regs ≤ 64 * length moving.old }
    requires firsts { length firsts.old ≡ length m.now.regs }
    requires none { (r : ℕ) → r < length m.now.regs → IsUnmarked moving.old r }
    requires up_to_date { IsUpToDate m.now levels.old marks.old }
    ensures state { levels.new ≡ record levels.old { regs = rows_after levels.old m.now.regs levels.old.regs } }
    ensures still { result ≡ 0 → levels.new ≡ levels.old }
    ensures up_to_date { IsUpToDate m.now levels.new marks.new }
    ensures room { length marks.new ≡ length marks.old }
    ensures moving_room { length moving.new ≡ length moving.old }
    ensures none { (r : ℕ) → r < length m.now.regs → IsUnmarked moving.new r }
{
    take_firsts(m, levels, marks, moving, firsts);
    let count = m.regs().len();
    let mut changed = 0;
    let mut reg = moving.first(0);
    while reg < count {
        moving.clear(reg);
        if shift_register(m, readers, levels, marks, reg, firsts[reg]) {
            changed += 1;
        }
        reg = moving.first(reg + 1);
    }
    changed
}

// A clock edge on all registers, after which all is marked; `firsts` is room for a level of each. Answers how many registers
// change.
fn edge_plainly(m: &Module, levels: &mut Levels, marks: &mut Marks, firsts: &mut [bool]) -> usize
    requires levels { HasAllLevels m.now levels.old }
    requires room { length m.now.assigns + length m.now.regs ≤ 64 * length marks.old }
    requires firsts { length firsts.old ≡ length m.now.regs }
    ensures state { levels.new ≡ record levels.old { regs = rows_after levels.old m.now.regs levels.old.regs } }
    ensures still { result ≡ 0 → levels.new ≡ levels.old }
    ensures up_to_date { IsUpToDate m.now levels.new marks.new }
    ensures room { length marks.new ≡ length marks.old }
{
    marks.fill_from(0);
    levels::clock_edge(m, levels, firsts)
}

/// A clock edge. Only marked registers can change. `moving` is an empty set of registers, and `firsts` room for a
/// level of each. `busy` is whether many registers changed at the edge before: marks cost more than a plain edge then. Answers how
/// many registers change.
pub fn clock_edge(
    m: &Module,
    readers: &Readers,
    levels: &mut Levels,
    marks: &mut Marks,
    moving: &mut Marks,
    firsts: &mut [bool],
    busy: bool,
) -> usize
    requires levels { HasAllLevels m.now levels.old }
    requires taps { HasTaps readers.now.lists readers.now.tapped }
    requires readers { AreReaders m.now readers.now.starts.items readers.now.lists }
    requires room { length m.now.assigns + length m.now.regs ≤ 64 * length marks.old }
    requires moving_room { length m.now.regs ≤ 64 * length moving.old }
    requires firsts { length firsts.old ≡ length m.now.regs }
    requires none { (r : ℕ) → r < length m.now.regs → IsUnmarked moving.old r }
    requires up_to_date { IsUpToDate m.now levels.old marks.old }
    ensures state { levels.new ≡ record levels.old { regs = rows_after levels.old m.now.regs levels.old.regs } }
    ensures still { result ≡ 0 → levels.new ≡ levels.old }
    ensures up_to_date { IsUpToDate m.now levels.new marks.new }
    ensures room { length marks.new ≡ length marks.old }
    ensures moving_room { length moving.new ≡ length moving.old }
    ensures none { (r : ℕ) → r < length m.now.regs → IsUnmarked moving.new r }
{
    if busy {
        edge_plainly(m, levels, marks, firsts)
    } else {
        edge_marked(m, readers, levels, marks, moving, firsts)
    }
}

/// Whether so many registers that change are many.
pub fn is_busy(m: &Module, changed: usize) -> bool {
    few_items(m);
    changed > (m.assigns().len() + m.regs().len()) / 8
}
