ghost use Rattle.std.specs.Prelude.{◌≡◌, ◌≤◌, ◌<◌, ◌≤ℤ◌, ◌↔◌, ◌-◌, pos, negsuc, [], ℕ, length, take, true, option_map, IfOk, OnOk, OnErr, IfSome};
ghost use Rattle.refutation.specs.Path.{runs, sum_of, is_negative};
ghost use Rattle.diff_bounds.specs.declared.added.Added.TheVariants as answers;
ghost use Rattle.diff_bounds.specs.Bounds.{more, CanBeMet, Implies, IsLeast, IsSolution};
ghost use Rattle.diff_bounds.specs.Verdict.{IsContradiction, IfContradiction, grown};

use crate::added::Added;
use crate::asking::{least, shortest};
use crate::ends::Ends;
use crate::judging::{judge, keep};
use crate::search::Search;
use refutation::{Assumption, Chain};
use rl_time::NoMemory;
use std::alloc::Global;
use std::marker::Model;

/// Assumptions on the differences of 1 to 64 inputs, which can be met together, with one solution kept. It is seen as
/// the number of inputs and the list of the assumptions.
#[derive(Drop)]
pub struct Bounds {
    alloc: Global,
    inputs: u32,
    assumptions: Vec<Assumption>,
    ends: Ends,
    kept: Vec<u64>,
    search: Search,
}

impl Model for Bounds {
    ghost use Rattle.diff_bounds.specs.Bounds.{System};

    ghost Value = { System };

    ghost view = { λ b. record { inputs = b.inputs; assumptions = b.assumptions.items } };

    ghost use Rattle.diff_bounds.specs.Search.{IsBounds, IsListed, IsSized};

    ghost invariant = { λ b. IsBounds b.inputs b.assumptions.items b.kept.items × (IsListed b.inputs b.assumptions.items b.ends × IsSized b.inputs b.search) };
}

impl Bounds {
    /// No assumptions yet on n inputs. It takes the memory of all searches.
    pub fn new(alloc: Global, n: u32) -> Result<Bounds, NoMemory>
        requires some { 0 < n }
        requires few { n ≤ 64 }
        ensures inputs { IfOk result (λ bounds. bounds.inputs ≡ n) }
        ensures none { IfOk result (λ bounds. bounds.assumptions ≡ []) }
    {
        Ok(Bounds {
            alloc,
            inputs: n,
            assumptions: Vec::new(alloc),
            ends: Ends::new(alloc, n)?,
            kept: vec![in alloc; 0; n as usize]?,
            search: Search::new(alloc, n)?,
        })
    }

    /// The number of inputs.
    pub fn inputs(&self) -> u32
        ensures { result ≡ self.now.inputs }
    {
        self.inputs
    }

    /// The assumptions, in the order in which they were added.
    pub fn assumptions(&self) -> &[Assumption]
        ensures { result.now ≡ self.now.assumptions }
    {
        &self.assumptions
    }

    /// Adds the assumption `x_i - x_j <= w` at the end, unless no numbers meet it together with the others.
    pub fn add(&mut self, i: u32, j: u32, w: i64) -> Result<Added, NoMemory>
        requires i { i < self.old.inputs }
        requires j { j < self.old.inputs }
        requires low { negsuc 1000000 ≤ℤ w }
        requires high { w ≤ℤ pos 1000001 }
        requires room { length self.old.assumptions < 65536 }
        ensures fresh { IfOk result (λ added. (added ≡ answers.Fresh) ↔ (CanBeMet (more self.old.assumptions i j w) × (Implies self.old.assumptions i j w → ⊥))) }
        ensures held { IfOk result (λ added. (added ≡ answers.Held) ↔ Implies self.old.assumptions i j w) }
        ensures contradiction { IfOk result (λ added. IsContradiction added ↔ (CanBeMet (more self.old.assumptions i j w) → ⊥)) }
        ensures chain { IfOk result (λ added. IfContradiction added (λ chain. is_negative (more self.old.assumptions i j w) chain ≡ true)) }
        ensures short { IfOk result (λ added. IfContradiction added (λ chain. length chain ≤ self.old.inputs)) }
        ensures assumptions { IfOk result (λ added. self.new.assumptions ≡ grown self.old.assumptions i j w added) }
        ensures inputs { self.new.inputs ≡ self.old.inputs }
        ensures unchanged { OnErr result (self.new ≡ self.old) }
    {
        let edge = Assumption {
            from: i,
            to: j,
            bound: w,
        };
        let added = judge(
            self.alloc,
            &self.assumptions,
            &self.ends,
            edge,
            &mut self.kept,
            self.inputs,
            &mut self.search,
        )?;
        keep(
            &mut self.assumptions,
            &mut self.ends,
            edge,
            &added,
            self.inputs,
        )?;
        Ok(added)
    }

    /// Takes the last assumption away.
    pub fn undo(&mut self)
        requires some { 0 < length self.old.assumptions }
        ensures assumptions { self.new.assumptions ≡ take (length self.old.assumptions - 1) self.old.assumptions }
        ensures inputs { self.new.inputs ≡ self.old.inputs }
    {
        if let Some(edge) = self.assumptions.pop() {
            self.ends.pop(&self.assumptions, edge, self.inputs);
        }
    }

    /// The least w such that the assumptions imply `x_i - x_j <= w`, or `None` where they imply no bound.
    pub fn least(&mut self, i: u32, j: u32) -> Option<i64>
        requires i { i < self.old.inputs }
        requires j { j < self.old.inputs }
        ensures least { IsLeast self.old.assumptions i j result }
        ensures same { self.new ≡ self.old }
    {
        least(
            &self.assumptions,
            &self.ends,
            &self.kept,
            i,
            j,
            self.inputs,
            &mut self.search,
        )
    }

    /// A chain from i to j whose sum is the least bound on `x_i - x_j`, of fewer numbers than there are inputs, or
    /// `None` where the assumptions imply no bound.
    pub fn chain(&mut self, i: u32, j: u32) -> Result<Option<Chain>, NoMemory>
        requires i { i < self.old.inputs }
        requires j { j < self.old.inputs }
        ensures least { IfOk result (λ found. IsLeast self.old.assumptions i j (option_map (sum_of self.old.assumptions) found)) }
        ensures runs { IfOk result (λ found. IfSome found (λ chain. runs self.old.assumptions i j chain ≡ true)) }
        ensures short { IfOk result (λ found. IfSome found (λ chain. length chain < self.old.inputs)) }
        ensures same { self.new ≡ self.old }
    {
        shortest(
            self.alloc,
            &self.assumptions,
            &self.ends,
            &self.kept,
            i,
            j,
            self.inputs,
            &mut self.search,
        )
    }

    /// The solution that is kept: a number for each input, all assumptions met, the least number 0, and none greater
    /// than 63,000,063.
    pub fn kept(&self) -> &[u64]
        ensures { IsSolution self.now.inputs self.now.assumptions result.now }
    {
        &self.kept
    }

    /// A copy of the solution that is kept.
    pub fn solution(&mut self) -> Result<Vec<u64>, NoMemory>
        ensures solution { IfOk result (λ numbers. IsSolution self.old.inputs self.old.assumptions numbers.items) }
        ensures same { self.new ≡ self.old }
    {
        Ok(self.kept.clone()?)
    }
}
