ghost use Rattle.std.specs.Prelude.{◌≡◌, ◌++◌, ◌∷◌, [], OnOk, IfOk};

use rl_time::NoMemory;
use smallvec::SmallVec;
use std::alloc::Global;
use std::marker::Model;

/// A list of numbers of assumptions. Up to four take no memory of their own.
#[derive(Debug, Drop)]
pub struct Chain {
    numbers: SmallVec<u32, 4>,
}

impl Model for Chain {
    ghost use Rattle.std.specs.Prelude.{List, ℕ};

    ghost Value = { List ℕ };

    ghost view = { λ c. c.numbers.items };
}

impl Chain {
    /// The chain without numbers.
    pub fn new(alloc: Global) -> Chain
        ensures { result ≡ [] }
    {
        Chain {
            numbers: SmallVec::new(alloc),
        }
    }

    /// A chain of the same numbers.
    pub fn copy(&self, alloc: Global) -> Result<Chain, NoMemory>
        ensures { IfOk result (λ chain. chain ≡ self.now) }
    {
        Ok(Chain {
            numbers: SmallVec::from_slice(alloc, self.numbers())?,
        })
    }

    /// Adds k at the end.
    pub fn push(&mut self, k: u32) -> Result<(), NoMemory>
        ensures { OnOk result (self.new ≡ self.old ++ k ∷ []) }
    {
        self.numbers.push(k)?;
        Ok(())
    }

    /// The numbers, in order.
    pub fn numbers(&self) -> &[u32]
        ensures { result.now ≡ self.now }
    {
        self.numbers.as_slice()
    }
}
