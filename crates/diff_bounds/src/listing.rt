ghost use Rattle.std.specs.Prelude.{◌≡◌, ◌<◌, ◌++◌, ◌∷◌, [], ℕ, length, IfOk, OnOk, OnErr};
ghost use Rattle.refutation.specs.declared.assumption.Assumption.{Assumption};
ghost use Rattle.diff_bounds.specs.Bounds.{Implies};
ghost use Rattle.diff_bounds.specs.Search.{IsByInput, IsListed};

use crate::ends::{ByInput, Ends};
use crate::searching::put_number;
use refutation::Assumption;
use rl_time::NoMemory;
use std::alloc::Global;

impl ByInput {
    /// No assumptions on n inputs.
    fn new(alloc: Global, n: u32) -> Result<ByInput, NoMemory>
        ensures { IfOk result (λ list. (end : Assumption → ℕ) → IsByInput end n [] list) }
    {
        Ok(ByInput {
            lasts: vec![in alloc; 0; n as usize]?,
            earlier: Vec::new(alloc),
        })
    }

    /// Lists one assumption more for its input k.
    fn push(&mut self, edges: &[Assumption], edge: Assumption, k: u32) -> Result<(), NoMemory>
        requires there { k < length self.old.lasts.items }
        requires room { length edges.now < 65536 }
        ensures listed { OnOk result ((n : ℕ) → (end : Assumption → ℕ) → end edge ≡ k → IsByInput end n edges.now self.old → IsByInput end n (edges.now ++ edge ∷ []) self.new) }
        ensures unchanged { OnErr result ((n : ℕ) → (end : Assumption → ℕ) → IsByInput end n edges.now self.old → IsByInput end n edges.now self.new) }
    {
        let _ = edge;
        let number = edges.len() as u32;
        let last = self.lasts.as_slice()[k as usize];
        self.earlier.push(last)?;
        put_number(&mut self.lasts, k, number + 1);
        Ok(())
    }

    /// Puts one assumption more after the others, which imply it: it is not listed for its input k.
    fn push_held(&mut self, edges: &[Assumption], edge: Assumption, k: u32) -> Result<(), NoMemory>
        requires there { k < length self.old.lasts.items }
        requires held { Implies edges.now edge.from edge.to edge.bound }
        ensures listed { OnOk result ((n : ℕ) → (end : Assumption → ℕ) → end edge ≡ k → IsByInput end n edges.now self.old → IsByInput end n (edges.now ++ edge ∷ []) self.new) }
        ensures unchanged { OnErr result ((n : ℕ) → (end : Assumption → ℕ) → IsByInput end n edges.now self.old → IsByInput end n edges.now self.new) }
    {
        let _ = edges;
        let _ = edge;
        let listed = self.lasts.as_slice()[k as usize];
        self.earlier.push(listed)?;
        Ok(())
    }

    /// Takes the last assumption away. It is listed no more for its input k.
    fn pop(&mut self, edges: &[Assumption], edge: Assumption, k: u32)
        requires there { k < length self.old.lasts.items }
        requires some { 0 < length self.old.earlier.items }
        ensures { (n : ℕ) → (end : Assumption → ℕ) → end edge ≡ k → IsByInput end n (edges.now ++ edge ∷ []) self.old → IsByInput end n edges.now self.new }
    {
        let _ = edges;
        let _ = edge;
        if let Some(last) = self.earlier.pop() {
            put_number(&mut self.lasts, k, last);
        }
    }
}

impl Ends {
    /// No assumptions on n inputs.
    pub(crate) fn new(alloc: Global, n: u32) -> Result<Ends, NoMemory>
        ensures { IfOk result (λ ends. IsListed n [] ends) }
    {
        Ok(Ends {
            to: ByInput::new(alloc, n)?,
            from: ByInput::new(alloc, n)?,
        })
    }

    /// Lists one assumption more, which is to be the next after the others.
    pub(crate) fn push(
        &mut self,
        edges: &[Assumption],
        edge: Assumption,
        n: u32,
    ) -> Result<(), NoMemory>
        requires listed { IsListed n edges.now self.old }
        requires from { edge.from < n }
        requires to { edge.to < n }
        requires room { length edges.now < 65536 }
        ensures listed { OnOk result (IsListed n (edges.now ++ edge ∷ []) self.new) }
        ensures unchanged { OnErr result (IsListed n edges.now self.new) }
    {
        let _ = n;
        self.to.push(edges, edge, edge.to)?;
        match self.from.push(edges, edge, edge.from) {
            Ok(()) => Ok(()),
            Err(error) => {
                self.to.pop(edges, edge, edge.to);
                Err(error)
            }
        }
    }

    /// Puts one assumption more after the others, which imply it: it is not listed.
    pub(crate) fn push_held(
        &mut self,
        edges: &[Assumption],
        edge: Assumption,
        n: u32,
    ) -> Result<(), NoMemory>
        requires listed { IsListed n edges.now self.old }
        requires from { edge.from < n }
        requires to { edge.to < n }
        requires held { Implies edges.now edge.from edge.to edge.bound }
        ensures listed { OnOk result (IsListed n (edges.now ++ edge ∷ []) self.new) }
        ensures unchanged { OnErr result (IsListed n edges.now self.new) }
    {
        let _ = n;
        self.to.push_held(edges, edge, edge.to)?;
        match self.from.push_held(edges, edge, edge.from) {
            Ok(()) => Ok(()),
            Err(error) => {
                self.to.pop(edges, edge, edge.to);
                Err(error)
            }
        }
    }

    /// Takes the last assumption away. It is listed no more.
    pub(crate) fn pop(&mut self, edges: &[Assumption], edge: Assumption, n: u32)
        requires listed { IsListed n (edges.now ++ edge ∷ []) self.old }
        requires from { edge.from < n }
        requires to { edge.to < n }
        ensures { IsListed n edges.now self.new }
    {
        let _ = n;
        self.to.pop(edges, edge, edge.to);
        self.from.pop(edges, edge, edge.from);
    }
}
