ghost use Rattle.std.specs.Prelude.{◌≡◌, ◌≤◌, ◌<◌, ◌∷◌, ◌+◌, ◌*◌, ◌^◌, ℕ, false, length, replicate, slice_index_or, IfOk};
ghost use Rattle.std.specs.Int.{bit_at};
ghost use Rattle.levels.specs.Levels.{shifted};
ghost use Rattle.levels.specs.Rows.{IsPulled, HasTop, AllPulled, moved_at};
ghost use Rattle.levels.specs.Marked.{mark_at};

use crate::marks::{bit_of, first_bit};
use rl_time::NoMemory;
use smallvec::SmallVec;
use std::alloc::Global;
use std::marker::Model;
use std::mem;

/// The bits of a register, bit 0 first, in words of 64 bits. A row of one word takes no memory of its own.
#[derive(Drop)]
pub struct Row {
    width: u32,
    words: SmallVec<u64, 1>,
}

impl Model for Row {
    ghost use Rattle.std.specs.Prelude.{List, Bool};
    ghost use Rattle.levels.specs.Rows.{row_of};

    ghost Value = { List Bool };

    ghost view = { λ row. row_of row.width row.words.items };

    ghost use Rattle.std.specs.Prelude.{◌≡◌, ◌+◌, ◌/◌, length};

    ghost invariant = { λ row. length row.words.items ≡ row.width / 64 + 1 };
}

impl Row {
    /// `width` bits, all low.
    pub fn low(alloc: Global, width: u32) -> Result<Row, NoMemory>
        ensures { IfOk result (λ row. row ≡ replicate width false) }
    {
        Ok(Row {
            width,
            words: zeros(alloc, (width / 64 + 1) as usize)?,
        })
    }

    /// How many bits it has.
    pub fn width(&self) -> u32
        ensures { result ≡ length self.now }
    {
        self.width
    }

    /// The level of a bit, low past the last one.
    pub fn bit(&self, place: u32) -> bool
        ensures { result ≡ slice_index_or self.now place false }
    {
        place < self.width && bit_of(self.words.as_slice()[(place / 64) as usize], place % 64)
    }

    /// The first bit from this one on that differs from the bit before it, where this level is before bit 0; the
    /// width or more, where there is none.
    pub fn change(&self, first: bool, from: usize) -> usize
        ensures low { from ≤ result }
        ensures none { (j : ℕ) → from ≤ j → j < result → j < length self.now →
            slice_index_or (first ∷ self.now) j false ≡ slice_index_or self.now j false }
    {
        let _width = self.width;
        first_change(self.words.as_slice(), top(first), from)
    }

    /// Each bit takes the level of the bit before it, and bit 0 takes this one.
    pub fn shift(&mut self, first: bool)
        ensures { self.new ≡ shifted first self.old }
    {
        pull_all(self.words.as_mut_slice(), top(first));
    }
}

// `count` words, all zero.
fn zeros(alloc: Global, count: usize) -> Result<SmallVec<u64, 1>, NoMemory>
    ensures { IfOk result (λ words. words.items ≡ replicate count 0) }
{
    Ok(SmallVec::from_elem(alloc, 0, count)?)
}

// A word with this level as its top bit.
fn top(level: bool) -> u64
    ensures { HasTop level result }
{
    if level { 1 << 63 } else { 0 }
}

// The word moved up by one bit, with the top bit of the word before it at its low end.
fn pull(word: u64, before: u64) -> u64
    ensures { IsPulled word before result }
{
    (word << 1) | (before >> 63)
}

// Moves all bits up by one; bit 0 takes the top bit of this word.
fn pull_all(words: &mut [u64], start: u64)
    ensures { AllPulled words.old start words.new }
{
    let mut before = start;
    for word in words.iter_mut() {
        let pulled = pull(*word, before);
        before = mem::replace(word, pulled);
    }
}

// The word before a place, where this one is before the first.
fn word_before(words: &[u64], start: u64, place: usize) -> u64
    requires { place ≤ length words.now }
    ensures { result ≡ slice_index_or (start ∷ words.now) place 0 }
{
    if place == 0 { start } else { words[place - 1] }
}

// Which bits of a word moving all bits up changes.
fn changes(words: &[u64], start: u64, place: usize) -> u64
    requires { place < length words.now }
    ensures { (i : ℕ) → i < 64 → bit_at result i ≡ 0 →
        moved_at start words.now (64 * place + i) ≡ mark_at words.now (64 * place + i) }
{
    let word = words[place];
    word ^ pull(word, word_before(words, start, place))
}

// The first bit from this one on that moving all bits up changes, or a bit past the words.
fn first_change(words: &[u64], start: u64, from: usize) -> usize
    requires { length words.now ≤ 2 ^ 32 }
    ensures low { from ≤ result }
    ensures none { (j : ℕ) → from ≤ j → j < result → j < 64 * length words.now →
        moved_at start words.now j ≡ mark_at words.now j }
{
    let first = from / 64;
    if first >= words.len() {
        return from;
    }
    let bit = first_bit(changes(words, start, first), (from % 64) as u32);
    if bit < 64 {
        return 64 * first + bit as usize;
    }
    for place in first + 1..words.len() {
        let bit = first_bit(changes(words, start, place), 0);
        if bit < 64 {
            return 64 * place + bit as usize;
        }
    }
    64 * words.len()
}

/// `count` levels, all low.
pub fn all_low(alloc: Global, count: usize) -> Result<Vec<bool>, NoMemory>
    ensures { IfOk result (λ levels. levels.items ≡ replicate count false) }
{
    Ok(vec![in alloc; false; count]?)
}

/// The level at a place, low past the last one.
pub fn read(levels: &[bool], place: u32) -> bool
    ensures { result ≡ slice_index_or levels.now place false }
{
    levels.get(place as usize).copied().unwrap_or(false)
}
