ghost use Rattle.std.specs.Prelude.{◌≡◌, ◌≤◌, ◌<◌, ◌+◌, ◌-◌, ◌*◌, true, length, reverse};
ghost use Rattle.circuit.specs.Meaning.{HasLevels, IsSettled, upto};
ghost use Rattle.levels.specs.Marked.{NoneFrom};
ghost use Rattle.levels.specs.Operands.{AreReaders};
ghost use Rattle.marked_steps.specs.UpToDate.{IsUpToDate};
ghost use Rattle.event_sim.specs.Passes.{IsPass};

use circuit::{Module, laws};
use levels::{Levels, Marks, Readers};
use marked_steps::{activate, activate_plainly, most_marked};

/// Up to which assign activations went, and whether one of them changed a level.
#[derive(Clone, Copy)]
struct Reached {
    next: usize,
    changed: bool,
}

// The first marked assign from one on to the end, or the end.
fn next_marked(marks: &Marks, from: usize, end: usize) -> usize
    requires { from ≤ end }
    ensures low { from ≤ result }
    ensures high { result ≤ end }
    ensures none { NoneFrom marks.now from result }
{
    marks.first(from).min(end)
}

// The activations of the assigns from one on, upwards, of which only those of marked ones are made, and at most so many.
fn rise_marked(
    m: &Module,
    readers: &Readers,
    levels: &mut Levels,
    marks: &mut Marks,
    from: usize,
    end: usize,
    most: usize,
) -> Reached
    requires start { from ≤ end }
    requires end { end ≤ length m.now.assigns }
    requires levels { HasLevels m.now levels.old }
    requires readers { AreReaders m.now readers.now.starts.items readers.now.lists }
    requires room { length m.now.assigns + length m.now.regs ≤ 64 * length marks.old }
    requires up_to_date { IsUpToDate m.now levels.old marks.old }
    ensures low { from ≤ result.next }
    ensures high { result.next ≤ end }
    ensures pass { IsPass m.now (upto from (result.next - from)) levels.old levels.new result.changed }
    ensures up_to_date { IsUpToDate m.now levels.new marks.new }
    ensures room { length marks.new ≡ length marks.old }
{
    let mut left = most;
    let mut changed = false;
    let mut next = next_marked(marks, from, end);
    while next < end && left > 0 {
        let now = activate(m, readers, levels, marks, next);
        changed = changed || now;
        left -= 1;
        next = next_marked(marks, next + 1, end);
    }
    Reached { next, changed }
}

// The activations of the assigns from one on to the end, upwards, without marks. Answers whether one changes a level.
fn rise_plainly(m: &Module, levels: &mut Levels, from: usize, end: usize) -> bool
    requires start { from ≤ end }
    requires end { end ≤ length m.now.assigns }
    requires levels { HasLevels m.now levels.old }
    ensures { IsPass m.now (upto from (end - from)) levels.old levels.new result }
{
    let mut changed = false;
    for k in from..end {
        let now = activate_plainly(m, levels, k);
        changed = changed || now;
    }
    changed
}

// Marks what may not be up to date after activations without marks: all registers, and all assigns where it isn't known that all is
// settled.
fn mark_after(m: &Module, levels: &Levels, marks: &mut Marks, settled: bool)
    requires settled { settled ≡ true → IsSettled m.now levels.now }
    requires room { length m.now.assigns + length m.now.regs ≤ 64 * length marks.old }
    ensures up_to_date { IsUpToDate m.now levels.now marks.new }
    ensures room { length marks.new ≡ length marks.old }
{
    if settled {
        marks.fill_from(m.assigns().len());
    } else {
        marks.fill_from(0);
    }
}

/// The activations of the assigns from one on to the end, upwards. Those of assigns without a mark would change nothing and aren't
/// made, unless many are marked. Answers whether one changes a level.
pub fn rise(
    m: &Module,
    readers: &Readers,
    levels: &mut Levels,
    marks: &mut Marks,
    from: usize,
    end: usize,
) -> bool
    requires start { from ≤ end }
    requires end { end ≤ length m.now.assigns }
    requires levels { HasLevels m.now levels.old }
    requires readers { AreReaders m.now readers.now.starts.items readers.now.lists }
    requires room { length m.now.assigns + length m.now.regs ≤ 64 * length marks.old }
    requires up_to_date { IsUpToDate m.now levels.old marks.old }
    ensures pass { IsPass m.now (upto from (end - from)) levels.old levels.new result }
    ensures up_to_date { IsUpToDate m.now levels.new marks.new }
    ensures room { length marks.new ≡ length marks.old }
{
    m.rules();
    laws::settles_in_order();
    let most = most_marked(m, marks);
    let reached = rise_marked(m, readers, levels, marks, from, end, most);
    if reached.next == end {
        return reached.changed;
    }
    let more = rise_plainly(m, levels, reached.next, end);
    let all = from == 0 && end == m.assigns().len();
    mark_after(m, levels, marks, all);
    reached.changed || more
}

/// The activations of all assigns, downwards. Those of assigns without a mark would change nothing and aren't made. Answers
/// whether one changes a level.
pub fn fall(m: &Module, readers: &Readers, levels: &mut Levels, marks: &mut Marks) -> bool
    requires levels { HasLevels m.now levels.old }
    requires readers { AreReaders m.now readers.now.starts.items readers.now.lists }
    requires room { length m.now.assigns + length m.now.regs ≤ 64 * length marks.old }
    requires up_to_date { IsUpToDate m.now levels.old marks.old }
    ensures pass { IsPass m.now (reverse (upto 0 (length m.now.assigns))) levels.old levels.new result }
    ensures up_to_date { IsUpToDate m.now levels.new marks.new }
    ensures room { length marks.new ≡ length marks.old }
{
    let mut changed = false;
    let mut end = marks.past_last(m.assigns().len());
    while end > 0 {
        let now = activate(m, readers, levels, marks, end - 1);
        changed = changed || now;
        end = marks.past_last(end - 1);
    }
    changed
}
