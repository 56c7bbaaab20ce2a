//! A map from names that a text holds.
ghost use Rattle.std.specs.Prelude.{◌≡◌, ℕ, List, Option, None, OnOk};
ghost use Rattle.rl_text.specs.NameMap.{find, AddsName};

use std::alloc::{AllocError, Global};
use std::collections::BTreeMap;

/// A map whose keys are names of a text.
#[derive(Drop)]
pub struct NameMap<'a, T> {
    pub map: BTreeMap<&'a [u8], T>,
}

impl<'a, T: Copy> NameMap<'a, T> {
    /// No names yet.
    pub fn new(alloc: Global) -> NameMap<'a, T>
        ensures { (t : List ℕ) → find result t ≡ None }
    {
        NameMap {
            map: BTreeMap::new(alloc),
        }
    }

    /// What the name is mapped to.
    pub fn get(&self, name: &[u8]) -> Option<T>
        ensures { result ≡ find self.now name.now }
    {
        self.map.get(name).copied()
    }

    /// Maps a name to a value, in place of an earlier one.
    pub fn add(&mut self, name: &'a [u8], value: T) -> Result<(), AllocError>
        ensures { OnOk result (AddsName self.old self.new name.now value) }
    {
        self.map.insert(name, value)?;
        Ok(())
    }
}
