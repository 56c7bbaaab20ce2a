ghost use Rattle.std.specs.Prelude.{◌≡◌, ◌+◌, ◌≤◌, ◌<◌, ◌++◌, ◌∷◌, [], ℕ, pos, negsuc, neg_ℤ, ◌-ℤ◌, ◌≤ℤ◌, List, Some, true, length, take, IfOk, OnOk, MatchOption};
ghost use Rattle.std.specs.List.{All, AllByRecursion};
ghost use Rattle.std.specs.Bool.{MatchBool};
ghost use Rattle.net_model.specs.declared.assume.Assume.{Assume};
ghost use Rattle.refutation.specs.declared.item.Fact.{Fact};
ghost use Rattle.refutation.specs.Path.{assumption};
ghost use Rattle.diff_bounds.specs.Bounds.{IsSolution, Implies};
ghost use Rattle.diff_bounds.specs.Pressing.{IsNear};
ghost use Rattle.spike_eval.specs.Premises.{NameInputs};
ghost use Rattle.tree_check.specs.Forms.{compared};
ghost use Rattle.tree_check.specs.Valid.{root, listed};
ghost use Rattle.case_split.specs.Decided.{AreRight, IsOpen, IsPossible};
ghost use Rattle.case_split.specs.Stages.{Stage, assumed, settled};
ghost use Rattle.case_split.specs.Steps.{yes_assumption, no_assumption};
ghost use Rattle.case_split.specs.Task.{IsFact};

use crate::assuming::{add, cut, implied, is_kept, premised};
use crate::comparison::{Choice, Comparison};
use crate::hints::{note, pair, tells};
use crate::later::Later;
use crate::sides::{no_side, yes_side};
use diff_bounds::Bounds;
use net_model::Assume;
use refutation::{Assumption, Chain, Fact};
use rl_time::NoMemory;
use std::alloc::Global;
use std::marker::Model;
use tree_check::Form;

/// One place of the walk through the cases, and the sides that are pending. For each pair of inputs `latest` has the place of the last
/// fact that was listed, which may be there no more: it is a hint, so that few facts are looked for.
#[derive(Drop)]
pub struct Stages {
    alloc: Global,
    bounds: Bounds,
    facts: Vec<Fact>,
    latest: Vec<usize>,
    forms: Vec<Form>,
    later: Vec<Later>,
}

impl Model for Stages {
    ghost use Rattle.case_split.specs.Stages.{Stages};
    ghost use Rattle.case_split.specs.Nested.{begun, AreNested};

    ghost Value = { Stages };

    ghost view = { λ s. record { inputs = s.bounds.inputs; now = record { path = s.bounds.assumptions; facts = s.facts.items; forms = s.forms.items }; later = begun s.bounds.assumptions s.facts.items s.forms.items s.later.items } };

    ghost invariant = { λ s. AreNested s.bounds.inputs s.bounds.assumptions s.facts.items s.forms.items s.later.items };
}

impl Stages {
    /// The stage at which only the premises are assumed.
    pub fn new(alloc: Global, inputs: u32, premises: &[Assume]) -> Result<Stages, NoMemory>
        requires some_inputs { 1 ≤ inputs }
        requires few_inputs { inputs ≤ 64 }
        requires few_premises { length premises.now ≤ 128 }
        requires named { NameInputs inputs premises.now }
        requires small_premises { All (λ p. p.by ≤ 1000000) premises.now }
        ensures { IfOk result (λ stages. stages ≡ record { inputs = inputs; now = record { path = root premises.now; facts = []; forms = [] }; later = [] }) }
    {
        Ok(Stages {
            alloc,
            bounds: premised(alloc, inputs, premises)?,
            facts: Vec::new(alloc),
            latest: vec![in alloc; 0; inputs as usize * inputs as usize]?,
            forms: Vec::new(alloc),
            later: Vec::new(alloc),
        })
    }

    /// The forms that the places have so far.
    pub fn forms(&self) -> &[Form]
        ensures { result.now ≡ self.now.now.forms }
    {
        &self.forms
    }

    /// The facts that were derived so far.
    pub fn facts(&self) -> &[Fact]
        ensures { result.now ≡ self.now.now.facts }
    {
        &self.facts
    }

    /// How many stages are left: this one, and the pending sides.
    pub fn pending(&self) -> usize
        ensures { result ≡ 1 + length self.now.later }
    {
        self.later.len() + 1
    }

    /// A number for each input, which meet all that is assumed.
    pub fn kept(&self) -> &[u64]
        ensures { IsSolution self.now.inputs self.now.now.path result.now }
    {
        self.bounds.kept()
    }

    /// Gives the next place its form.
    pub fn settle(&mut self, form: Form) -> Result<(), NoMemory>
        ensures inputs { self.new.inputs ≡ self.old.inputs }
        ensures now { OnOk result (self.new.now ≡ settled self.old.now form) }
        ensures later { self.new.later ≡ self.old.later }
    {
        self.forms.push(form)?;
        Ok(())
    }

    /// Whether the comparison is so at all numbers that meet what is assumed (`Some(true)`), at none of them (`Some(false)`), or
    /// neither (`None`). Where it is decided, the facts show it; at most one is added.
    pub fn answer(&mut self, comparison: Comparison) -> Result<Option<bool>, NoMemory>
        requires from { comparison.from < self.old.inputs }
        requires to { comparison.to < self.old.inputs }
        requires from_cycles { comparison.from_cycles ≤ 1000000 }
        requires to_cycles { comparison.to_cycles ≤ 1000000 }
        requires few_inputs { self.old.inputs ≤ 64 }
        requires room { length self.old.now.path ≤ 65535 }
        requires right { AreRight self.old.now.path self.old.now.facts }
        ensures inputs { self.new.inputs ≡ self.old.inputs }
        ensures path { self.new.now.path ≡ self.old.now.path }
        ensures forms { self.new.now.forms ≡ self.old.now.forms }
        ensures later { self.new.later ≡ self.old.later }
        ensures facts { OnOk result ((more : List Fact) × (self.new.now.facts ≡ self.old.now.facts ++ more) × AreRight self.old.now.path more × All (IsFact self.old.inputs) more) }
        ensures answer { IfOk result (λ answer. MatchOption answer
            (IsOpen self.old.now.path comparison.from comparison.from_cycles comparison.to comparison.to_cycles)
            (λ b. compared (listed self.new.now.facts) comparison.from comparison.from_cycles comparison.to comparison.to_cycles ≡ Some b)) }
        ensures sides { IfOk result (λ answer. MatchOption answer
            (IsPossible (self.old.now.path ++ yes_assumption comparison ∷ []) × IsPossible (self.old.now.path ++ no_assumption comparison ∷ []))
            (λ b. Unit {0})) }
    {
        if comparison.from == comparison.to {
            return Ok(Some(comparison.from_cycles <= comparison.to_cycles));
        }
        let width = i64::from(comparison.to_cycles) - i64::from(comparison.from_cycles);
        if is_kept(&self.bounds, comparison.from, comparison.to, width) {
            if self.shows(comparison.from, comparison.to, width)? {
                return Ok(Some(true));
            }
        } else if self.shows(comparison.to, comparison.from, -width - 1)? {
            return Ok(Some(false));
        }
        Ok(None)
    }

    /// Whether all that is assumed implies `x_i - x_j <= w`. Where it does, a fact that shows it is added.
    fn shows(&mut self, i: u32, j: u32, w: i64) -> Result<bool, NoMemory>
        requires i { i < self.old.inputs }
        requires j { j < self.old.inputs }
        requires w { w ≤ℤ pos 1000000 }
        requires few_inputs { self.old.inputs ≤ 64 }
        requires room { length self.old.now.path ≤ 65535 }
        ensures inputs { self.new.inputs ≡ self.old.inputs }
        ensures path { self.new.now.path ≡ self.old.now.path }
        ensures forms { self.new.now.forms ≡ self.old.now.forms }
        ensures later { self.new.later ≡ self.old.later }
        ensures facts { OnOk result ((more : List Fact) × (self.new.now.facts ≡ self.old.now.facts ++ more) × AreRight self.old.now.path more × All (IsFact self.old.inputs) more) }
        ensures shown { IfOk result (λ b. MatchBool b (listed self.new.now.facts i j w ≡ true) (Implies self.old.now.path i j w → ⊥)) }
    {
        let pair = pair(self.bounds.inputs(), i, j);
        if tells(&self.latest, &self.facts, pair, i, j, w) {
            return Ok(true);
        }
        match implied(&mut self.bounds, i, j, w)? {
            Some(fact) => {
                note(&mut self.latest, pair, self.facts.len());
                self.facts.push(fact)?;
                Ok(true)
            }
            None => Ok(false),
        }
    }

    /// Assumes `x_i - x_j <= w` too, which some numbers meet together with the rest.
    pub fn assume(&mut self, i: u32, j: u32, w: i64) -> Result<(), NoMemory>
        requires i { i < self.old.inputs }
        requires j { j < self.old.inputs }
        requires low { negsuc 1000000 ≤ℤ w }
        requires high { w ≤ℤ pos 1000001 }
        requires room { length self.old.now.path ≤ 65535 }
        requires possible { IsPossible (self.old.now.path ++ assumption i j w ∷ []) }
        ensures inputs { self.new.inputs ≡ self.old.inputs }
        ensures path { OnOk result (self.new.now.path ≡ self.old.now.path ++ assumption i j w ∷ []) }
        ensures facts { self.new.now.facts ≡ self.old.now.facts }
        ensures forms { self.new.now.forms ≡ self.old.now.forms }
        ensures later { self.new.later ≡ self.old.later }
    {
        add(&mut self.bounds, i, j, w)?;
        Ok(())
    }

    /// Assumes that the comparison is so, which gives the next place its form. The other side is pending.
    pub fn split(&mut self, choice: Choice) -> Result<(), NoMemory>
        requires from { choice.comparison.from < self.old.inputs }
        requires to { choice.comparison.to < self.old.inputs }
        requires from_cycles { choice.comparison.from_cycles ≤ 1000000 }
        requires to_cycles { choice.comparison.to_cycles ≤ 1000000 }
        requires few_inputs { self.old.inputs ≤ 64 }
        requires room { length self.old.now.path ≤ 65535 }
        requires possible { IsPossible (self.old.now.path ++ yes_assumption choice.comparison ∷ []) }
        ensures inputs { self.new.inputs ≡ self.old.inputs }
        ensures now { OnOk result (self.new.now ≡ assumed self.old.now (yes_assumption choice.comparison) choice.yes) }
        ensures later { OnOk result (self.new.later ≡ assumed self.old.now (no_assumption choice.comparison) choice.no ∷ self.old.later) }
    {
        let depth = self.bounds.assumptions().len();
        self.later.push(Later {
            depth,
            facts: self.facts.len(),
            forms: self.forms.len(),
            side: no_side(choice.comparison),
            form: choice.no,
        })?;
        self.begin(yes_side(choice.comparison), choice.yes)
    }

    /// Assumes that the comparison is so, or that it isn't, which gives the next place its form. The other side isn't pending.
    pub fn take(&mut self, choice: Choice, is_so: bool) -> Result<(), NoMemory>
        requires from { choice.comparison.from < self.old.inputs }
        requires to { choice.comparison.to < self.old.inputs }
        requires from_cycles { choice.comparison.from_cycles ≤ 1000000 }
        requires to_cycles { choice.comparison.to_cycles ≤ 1000000 }
        requires few_inputs { self.old.inputs ≤ 64 }
        requires room { length self.old.now.path ≤ 65535 }
        requires yes_possible { IsPossible (self.old.now.path ++ yes_assumption choice.comparison ∷ []) }
        requires no_possible { IsPossible (self.old.now.path ++ no_assumption choice.comparison ∷ []) }
        ensures inputs { self.new.inputs ≡ self.old.inputs }
        ensures now { OnOk result (MatchBool is_so
            (self.new.now ≡ assumed self.old.now (yes_assumption choice.comparison) choice.yes)
            (self.new.now ≡ assumed self.old.now (no_assumption choice.comparison) choice.no)) }
        ensures later { OnOk result (self.new.later ≡ self.old.later) }
    {
        if is_so {
            self.begin(yes_side(choice.comparison), choice.yes)
        } else {
            self.begin(no_side(choice.comparison), choice.no)
        }
    }

    /// Goes back to the first so many of the assumptions. No place has a form then, and nothing is pending.
    pub fn restart(&mut self, depth: usize)
        ensures inputs { self.new.inputs ≡ self.old.inputs }
        ensures now { self.new.now ≡ record { path = take depth self.old.now.path; facts = []; forms = [] } }
    {
        cut(&mut self.bounds, depth);
        self.facts.clear();
        self.forms.clear();
        self.later.clear();
    }

    /// Goes back to the last pending side: whether there was one.
    pub fn back(&mut self) -> Result<bool, NoMemory>
        requires few_inputs { self.old.inputs ≤ 64 }
        requires possible { AllByRecursion (λ stage. IsPossible stage.path) self.old.later }
        requires room { AllByRecursion (λ stage. length stage.path ≤ 65536) self.old.later }
        ensures inputs { self.new.inputs ≡ self.old.inputs }
        ensures next { IfOk result (λ some. MatchBool some (self.old.later ≡ self.new.now ∷ self.new.later) (self.old.later ≡ [])) }
    {
        match self.later.pop() {
            Some(later) => {
                cut(&mut self.bounds, later.depth);
                self.facts.truncate(later.facts);
                self.forms.truncate(later.forms);
                self.begin(later.side, later.form)?;
                Ok(true)
            }
            None => Ok(false),
        }
    }

    /// Assumes a side of a split, with the fact that it is by itself, and the form that it gives the next place.
    fn begin(&mut self, side: Assumption, form: Form) -> Result<(), NoMemory>
        requires near { IsNear self.old.inputs side }
        requires few_inputs { self.old.inputs ≤ 64 }
        requires room { length self.old.now.path ≤ 65535 }
        requires possible { IsPossible (self.old.now.path ++ side ∷ []) }
        ensures inputs { self.new.inputs ≡ self.old.inputs }
        ensures now { OnOk result (self.new.now ≡ assumed self.old.now side form) }
        ensures later { OnOk result (self.new.later ≡ self.old.later) }
    {
        let pair = pair(self.bounds.inputs(), side.from, side.to);
        note(&mut self.latest, pair, self.facts.len());
        let mut chain = Chain::new(self.alloc);
        chain.push(self.bounds.assumptions().len() as u32)?;
        add(&mut self.bounds, side.from, side.to, side.bound)?;
        self.facts.push(Fact {
            from: side.from as u16,
            to: side.to as u16,
            bound: side.bound as i32,
            chain,
        })?;
        self.forms.push(form)?;
        Ok(())
    }
}
