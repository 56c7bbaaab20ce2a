ghost use Rattle.std.specs.Prelude.{◌≡◌, ◌≢◌, ◌<◌, ◌≤◌, ◌+◌, ◌-◌, ◌*◌, ◌^◌, ◌==◌, true, false, ℕ, [], length, replicate, IfOk};
ghost use Rattle.std.specs.Int.{bit_at};
ghost use Rattle.levels.specs.Marked.{mark_at, IsMarked, IsUnmarked, HasMore, NoneFrom, NoMoreUpTo, HasAll, HasAllAbove, IsFilled};

use rl_time::NoMemory;
use std::alloc::Global;
use std::marker::Model;

/// A set of numbers below a bound, a bit for each.
#[derive(Drop)]
pub struct Marks {
    words: Vec<u64>,
}

impl Model for Marks {
    ghost use Rattle.std.specs.Prelude.{List, ℕ};

    ghost Value = { List ℕ };

    ghost view = { λ m. m.words.items };

    ghost use Rattle.std.specs.Prelude.{◌≤◌, ◌^◌, length};

    ghost invariant = { λ m. length m.words.items ≤ 2 ^ 32 };
}

impl Marks {
    /// An empty set of numbers below `count`.
    pub fn none(alloc: Global, count: usize) -> Result<Marks, NoMemory>
        requires { count ≤ 2 ^ 32 }
        ensures room { IfOk result (λ marks. count ≤ 64 * length marks) }
        ensures none { IfOk result (λ marks. (k : ℕ) → IsUnmarked marks k) }
    {
        Ok(Marks {
            words: zeros(alloc, count / 64 + 1)?,
        })
    }

    /// The set of all numbers below `count`.
    pub fn all(alloc: Global, count: usize) -> Result<Marks, NoMemory>
        requires { count ≤ 2 ^ 32 }
        ensures room { IfOk result (λ marks. count ≤ 64 * length marks) }
        ensures all { IfOk result (λ marks. (k : ℕ) → k < count → IsMarked marks k) }
    {
        Ok(Marks {
            words: ones(alloc, count / 64 + 1)?,
        })
    }

    /// The numbers below this one have room in the set.
    pub fn room(&self) -> usize
        ensures { result ≡ 64 * length self.now }
    {
        64 * self.words.len()
    }

    /// Adds a number.
    pub fn mark(&mut self, k: usize)
        requires { k < 64 * length self.old }
        ensures more { HasMore self.old self.new }
        ensures marked { IsMarked self.new k }
        ensures others { (i : ℕ) → i ≢ k → mark_at self.new i ≡ mark_at self.old i }
    {
        self.words[k / 64] |= 1 << (k % 64);
    }

    /// Adds a number, if there is room for it.
    pub fn add(&mut self, k: usize)
        ensures more { HasMore self.old self.new }
        ensures marked { k < 64 * length self.old → IsMarked self.new k }
        ensures others { (i : ℕ) → i ≢ k → mark_at self.new i ≡ mark_at self.old i }
    {
        if k < self.room() {
            self.mark(k);
        }
    }

    /// Adds a number that is above another, if there is room for it.
    pub fn add_above(&mut self, k: usize, last: usize)
        ensures more { HasMore self.old self.new }
        ensures marked { last < k → k < 64 * length self.old → IsMarked self.new k }
        ensures below { NoMoreUpTo self.old self.new last }
    {
        if last < k {
            self.add(k);
        }
    }

    /// Removes a number.
    pub fn clear(&mut self, k: usize)
        requires { k < 64 * length self.old }
        ensures room { length self.new ≡ length self.old }
        ensures cleared { IsUnmarked self.new k }
        ensures others { (i : ℕ) → i ≢ k → mark_at self.new i ≡ mark_at self.old i }
    {
        self.words[k / 64] &= !(1 << (k % 64));
    }

    /// The least number of the set from this one on, or a number past the room if there is none.
    pub fn first(&self, from: usize) -> usize
        ensures low { from ≤ result }
        ensures none { NoneFrom self.now from result }
        ensures found { result < 64 * length self.now → IsMarked self.now result }
    {
        let start = from / 64;
        if start >= self.words.len() {
            return from;
        }
        let bit = first_bit(self.words[start], (from % 64) as u32);
        if bit < 64 {
            return 64 * start + bit as usize;
        }
        for place in start + 1..self.words.len() {
            let bit = first_bit(self.words[place], 0);
            if bit < 64 {
                return 64 * place + bit as usize;
            }
        }
        64 * self.words.len()
    }

    /// Whether a number is in the set.
    pub fn has(&self, k: usize) -> bool
        requires { k < 64 * length self.now }
        ensures yes { result ≡ true → IsMarked self.now k }
        ensures no { result ≡ false → IsUnmarked self.now k }
    {
        bit_of(self.words[k / 64], (k % 64) as u32)
    }

    // A number below this one, with none of the set between them, where the one right below isn't in the set.
    fn step_down(&self, k: usize) -> usize
        requires some { 0 < k }
        requires room { k ≤ 64 * length self.now }
        requires unmarked { IsUnmarked self.now (k - 1) }
        ensures lower { result < k }
        ensures none { NoneFrom self.now result k }
    {
        if k % 64 == 0 && self.words[k / 64 - 1] == 0 {
            k - 64
        } else {
            k - 1
        }
    }

    /// One more than the greatest number of the set below this one, or 0 if there is none.
    pub fn past_last(&self, end: usize) -> usize
        requires { end ≤ 64 * length self.now }
        ensures high { result ≤ end }
        ensures none { NoneFrom self.now result end }
        ensures found { 0 < result → IsMarked self.now (result - 1) }
    {
        let mut k = end;
        while k > 0 {
            if self.has(k - 1) {
                return k;
            }
            k = self.step_down(k);
        }
        0
    }

    /// How many numbers are in the words of the set that have the numbers below this one.
    pub fn count_to(&self, end: usize) -> usize {
        let mut count: usize = 0;
        for word in self.words.iter().take(end / 64 + 1) {
            count = count.saturating_add(word.count_ones() as usize);
        }
        count
    }

    /// Removes the numbers below this one, and adds all others that have room.
    pub fn fill_from(&mut self, from: usize)
        ensures room { length self.new ≡ length self.old }
        ensures below { (k : ℕ) → k < from → IsUnmarked self.new k }
        ensures above { (k : ℕ) → from ≤ k → k < 64 * length self.old → IsMarked self.new k }
    {
        for place in 0..self.words.len() {
            self.words[place] = ones_from(place, from);
        }
    }
}

// The word at this place of the set of all numbers from one on.
fn ones_from(place: usize, from: usize) -> u64
    requires { place ≤ 2 ^ 32 }
    ensures { IsFilled place from result }
{
    let first = 64 * place;
    if from <= first {
        u64::MAX
    } else if from - first < 64 {
        u64::MAX << (from - first)
    } else {
        0
    }
}

// `count` words, all zero.
fn zeros(alloc: Global, count: usize) -> Result<Vec<u64>, NoMemory>
    ensures { IfOk result (λ words. words.items ≡ replicate count 0) }
{
    Ok(vec![in alloc; 0; count]?)
}

// `count` words of ones.
fn ones(alloc: Global, count: usize) -> Result<Vec<u64>, NoMemory>
    ensures { IfOk result (λ words. words.items ≡ replicate count 18446744073709551615) }
{
    Ok(vec![in alloc; u64::MAX; count]?)
}

/// Whether a bit of a word is 1.
pub fn bit_of(word: u64, bit: u32) -> bool
    requires { bit < 64 }
    ensures { result ≡ (bit_at word bit == 1) }
{
    (word >> bit) & 1 == 1
}

/// The least bit of a word that is 1, from this one on; 64 if there is none.
pub fn first_bit(word: u64, from: u32) -> u32
    requires { from < 64 }
    ensures low { from ≤ result }
    ensures high { result ≤ 64 }
    ensures none { (j : ℕ) → from ≤ j → j < result → bit_at word j ≡ 0 }
    ensures found { result < 64 → bit_at word result ≡ 1 }
{
    let rest = word & (u64::MAX << from);
    if rest == 0 { 64 } else { rest.trailing_zeros() }
}
