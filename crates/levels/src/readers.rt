ghost use Rattle.std.specs.Prelude.{◌≡◌, ◌≤◌, ◌<◌, [], ℕ, length, slice_index_or};
ghost use Rattle.levels.specs.Marked.{HasMore, HasAll, HasAllAbove, NoMoreUpTo};
ghost use Rattle.levels.specs.Flat.{AreCuts, lists_of};
ghost use Rattle.levels.specs.Operands.{list_at, HasTaps};

use crate::marks::Marks;
use std::marker::Model;

/// A list of items for each place, in two flat arrays: those of place p are the entries from the start of p to that of p + 1.
#[derive(Drop)]
pub struct Lists {
    starts: Vec<u32>,
    entries: Vec<u32>,
}

impl Model for Lists {
    ghost use Rattle.std.specs.Prelude.{List, ℕ, length};
    ghost use Rattle.levels.specs.Flat.{AreCuts, lists_of};

    ghost Value = { List (List ℕ) };

    ghost view = { λ l. lists_of l.starts.items l.entries.items };

    ghost invariant = { λ l. AreCuts l.starts.items (length l.entries.items) };
}

impl Lists {
    /// The lists of these entries, where those of each place begin and end so.
    pub fn new(starts: Vec<u32>, entries: Vec<u32>) -> Lists
        requires { AreCuts starts.items (length entries.items) }
        ensures { result ≡ lists_of starts.items entries.items }
    {
        Lists { starts, entries }
    }

    /// The items of a place.
    pub fn at(&self, place: usize) -> &[u32]
        ensures { result.now ≡ list_at self.now place }
    {
        let count = self.starts.len();
        if count == 0 || place >= count - 1 {
            return &[];
        }
        let start = self.starts[place] as usize;
        let end = self.starts[place + 1] as usize;
        &self.entries[start..end]
    }
}

/// For each place the items that name it, the first place of each register's bits, and the places that some item names.
#[derive(Drop)]
pub struct Readers {
    pub starts: Vec<u32>,
    pub lists: Lists,
    pub tapped: Marks,
}

impl Readers {
    /// The first bit of a register, among all register bits.
    pub fn start(&self, reg: usize) -> u32
        ensures { result ≡ slice_index_or self.now.starts.items reg 0 }
    {
        self.starts.get(reg).copied().unwrap_or(0)
    }

    /// The first place from this one on that some item names, or a place past all of them.
    pub fn next_tap(&self, from: usize) -> usize
        requires { HasTaps self.now.lists self.now.tapped }
        ensures low { from ≤ result }
        ensures none { (p : ℕ) → from ≤ p → p < result → list_at self.now.lists p ≡ [] }
    {
        self.tapped.first(from)
    }

    /// Marks each item on the list of a place.
    pub fn mark_all(&self, place: usize, marks: &mut Marks)
        ensures more { HasMore marks.old marks.new }
        ensures all { HasAll marks.new (list_at self.now.lists place) }
    {
        for item in self.lists.at(place) {
            marks.add(*item as usize);
        }
    }

    /// Marks each item above this one on the list of a place.
    pub fn mark_above(&self, place: usize, last: usize, marks: &mut Marks)
        ensures more { HasMore marks.old marks.new }
        ensures all { HasAllAbove marks.new last (list_at self.now.lists place) }
        ensures below { NoMoreUpTo marks.old marks.new last }
    {
        for item in self.lists.at(place) {
            marks.add_above(*item as usize, last);
        }
    }
}
