ghost use Rattle.std.specs.Prelude.{◌≡◌, ℕ, List, Option, None, Some, OnOk, IfSome};
ghost use Rattle.verilog_read.specs.Scope.{find};
ghost use Rattle.verilog_read.specs.Known.{AddsName};

use std::alloc::{AllocError, Global};
use std::collections::BTreeMap;
use std::marker::Model;

/// What a declared name means: the clock or the reset; an input, an output, a wire or a register, by its place.
#[derive(Clone, Copy, Debug, PartialEq, Eq)]
pub enum Meaning {
    ClockOrReset,
    Input(u32),
    Output(u32),
    Wire(u32),
    Reg(u32),
}

/// A declared name, and what it means.
#[derive(Clone, Copy, Debug)]
pub struct Declared<'a> {
    pub name: &'a [u8],
    pub meaning: Meaning,
}

/// The names that are declared so far. Most modules number their names, such as `w0`, `w1`, .., and declare them in order. So a name is
/// first looked for in a list of all names, at the place of its number after the first name with its first letter, and in the map only
/// if it isn't there.
#[derive(Drop)]
pub struct Scope<'a> {
    map: BTreeMap<&'a [u8], Meaning>,
    listed: Vec<Declared<'a>>,
    starts: [Option<usize>; 256],
}

impl<'a> Model for Scope<'a> {
    ghost use Rattle.verilog_read.specs.Scope.{Names, names_of, AreFound};

    ghost Value = { Names };

    ghost view = { λ s. names_of s.map };

    ghost invariant = { λ s. AreFound (names_of s.map) s.listed.items };
}

impl<'a> Scope<'a> {
    /// No names yet.
    pub fn new(alloc: Global) -> Scope<'a>
        ensures { (t : List ℕ) → find result t ≡ None }
    {
        Scope {
            map: BTreeMap::new(alloc),
            listed: Vec::new(alloc),
            starts: [None; 256],
        }
    }

    /// What the name means, where it is declared.
    pub fn get(&self, name: &[u8]) -> Option<Meaning>
        ensures { result ≡ find self.now name.now }
    {
        match self.listed_for(name) {
            Some(declared) if declared.name == name => Some(declared.meaning),
            _ => self.map.get(name).copied(),
        }
    }

    /// Declares a name.
    pub fn add(&mut self, name: &'a [u8], meaning: Meaning) -> Result<(), AllocError>
        ensures { OnOk result (AddsName self.old self.new name.now meaning) }
    {
        if self.map.insert(name, meaning)?.is_some() {
            self.listed.clear();
            return Ok(());
        }
        self.note(name);
        self.listed.push(Declared { name, meaning })?;
        Ok(())
    }

    // Notes where the first name with this letter is, or would be if its number were 0.
    fn note(&mut self, name: &[u8])
        ensures { self.new ≡ self.old }
    {
        if let Some(first) = name.first() {
            if self.starts[*first as usize].is_none() {
                let start = self.listed.len().wrapping_sub(number_at_end(name));
                self.starts[*first as usize] = Some(start);
            }
        }
    }

    // What is listed where the name is if names are numbered in order.
    fn listed_for(&self, name: &[u8]) -> Option<Declared<'a>>
        ensures { IfSome result (λ d. find self.now d.name.now ≡ Some d.meaning) }
    {
        let first = name.first()?;
        let start = self.starts[*first as usize]?;
        let place = start.wrapping_add(number_at_end(name));
        self.listed.get(place).copied()
    }
}

/// The number that a name ends with, or 0.
fn number_at_end(name: &[u8]) -> usize {
    let mut number: usize = 0;
    for byte in name {
        number = if byte.is_ascii_digit() {
            (number % 10_000_000) * 10 + usize::from(*byte - b'0')
        } else {
            0
        };
    }
    number
}
