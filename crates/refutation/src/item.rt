ghost use Rattle.std.specs.Prelude.{◌≡◌, ◌++◌, ◌∷◌, [], OnOk, IfOk};

use crate::chain::Chain;
use rl_time::NoMemory;
use std::alloc::Global;
use std::marker::Model;

/// The claim that `x_from - x_to <= bound` follows from the assumptions that the chain names, in cycles. A file may have
/// millions of facts, so each takes 40 bytes.
#[derive(Debug, Drop)]
pub struct Fact {
    pub from: u16,
    pub to: u16,
    pub bound: i32,
    pub chain: Chain,
}

/// The facts of a leaf, seen as a list.
#[derive(Debug, Drop)]
pub struct Facts {
    facts: Vec<Fact>,
}

impl Model for Facts {
    ghost use Rattle.std.specs.Prelude.{List};
    ghost use Rattle.refutation.specs.declared.item.Fact.{Fact};

    ghost Value = { List Fact };

    ghost view = { λ f. f.facts.items };
}

impl Facts {
    /// No facts yet.
    pub fn new(alloc: Global) -> Facts
        ensures { result ≡ [] }
    {
        Facts {
            facts: Vec::new(alloc),
        }
    }

    /// Adds a fact at the end.
    pub fn push(&mut self, fact: Fact) -> Result<(), NoMemory>
        ensures { OnOk result (self.new ≡ self.old ++ fact ∷ []) }
    {
        self.facts.push(fact)?;
        Ok(())
    }

    /// The facts in a list of their own, which has no room to spare. None are left.
    pub(crate) fn take(&mut self, alloc: Global) -> Result<Facts, NoMemory>
        ensures taken { IfOk result (λ facts. facts ≡ self.old) }
        ensures left { OnOk result (self.new ≡ []) }
    {
        let mut facts = Vec::with_capacity(alloc, self.facts.len())?;
        facts.append(&mut self.facts)?;
        Ok(Facts { facts })
    }

    /// Drops all facts, and keeps the room.
    pub(crate) fn clear(&mut self)
        ensures { self.new ≡ [] }
    {
        self.facts.clear();
    }

    /// The facts, in order.
    pub fn as_slice(&self) -> &[Fact]
        ensures { result.now ≡ self.now }
    {
        self.facts.as_slice()
    }
}

/// An item of a tree. `Split(i, j, w)` has two subtrees: in the first `x_i - x_j <= w`, and in the second
/// `x_j - x_i <= -w - 1`. A leaf has facts, a closed item has a chain that shows a contradiction, and an unsettled
/// item shows nothing. Inputs are named by their places, from 0.
#[derive(Debug, Drop)]
pub enum Item {
    Split(u32, u32, i64),
    Leaf(Facts),
    Closed(Chain),
    Unsettled,
}
