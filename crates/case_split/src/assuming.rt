ghost use Rattle.std.specs.Prelude.{◌≡◌, ◌≤◌, ◌<◌, ◌++◌, ◌∷◌, [], ℕ, ℤ, pos, negsuc, ◌-ℤ◌, ◌≤ℤ◌, ◌<ℤ◌, length, take, true, IfOk, OnOk, OnErr, MatchOption};
ghost use Rattle.std.specs.List.{All};
ghost use Rattle.std.specs.Bool.{MatchBool};
ghost use Rattle.refutation.specs.Path.{assumption, MeetsAll};
ghost use Rattle.diff_bounds.specs.Bounds.{Implies};
ghost use Rattle.spike_eval.specs.Premises.{NameInputs};
ghost use Rattle.tree_check.specs.Valid.{root, is_right, fact_says};
ghost use Rattle.case_split.specs.Decided.{IsPossible};
ghost use Rattle.case_split.specs.Task.{IsFact};

use diff_bounds::{Added, Bounds};
use net_model::Assume;
use refutation::Fact;
use rl_time::NoMemory;
use std::alloc::Global;

/// Bounds with the premises as their only assumptions.
pub fn premised(alloc: Global, inputs: u32, premises: &[Assume]) -> Result<Bounds, NoMemory>
    requires some_inputs { 1 ≤ inputs }
    requires few_inputs { inputs ≤ 64 }
    requires few_premises { length premises.now ≤ 128 }
    requires named { NameInputs inputs premises.now }
    requires small_premises { All (λ p. p.by ≤ 1000000) premises.now }
    ensures inputs { IfOk result (λ bounds. bounds.inputs ≡ inputs) }
    ensures assumptions { IfOk result (λ bounds. bounds.assumptions ≡ root premises.now) }
{
    let mut bounds = Bounds::new(alloc, inputs)?;
    for p in premises {
        add(&mut bounds, p.from, p.to, i64::from(p.by))?;
    }
    Ok(bounds)
}

/// Adds an assumption, which some numbers meet together with the others.
pub fn add(bounds: &mut Bounds, i: u32, j: u32, w: i64) -> Result<(), NoMemory>
    requires i { i < bounds.old.inputs }
    requires j { j < bounds.old.inputs }
    requires low { negsuc 1000000 ≤ℤ w }
    requires high { w ≤ℤ pos 1000001 }
    requires room { length bounds.old.assumptions < 65536 }
    requires possible { IsPossible (bounds.old.assumptions ++ assumption i j w ∷ []) }
    ensures inputs { bounds.new.inputs ≡ bounds.old.inputs }
    ensures assumptions { OnOk result (bounds.new.assumptions ≡ bounds.old.assumptions ++ assumption i j w ∷ []) }
    ensures unchanged { OnErr result (bounds.new ≡ bounds.old) }
{
    match bounds.add(i, j, w)? {
        Added::Contradiction(_) => unreachable!(),
        Added::Fresh => Ok(()),
        Added::Held => Ok(()),
    }
}

/// Takes the last assumptions away, down to so many.
pub fn cut(bounds: &mut Bounds, depth: usize)
    ensures inputs { bounds.new.inputs ≡ bounds.old.inputs }
    ensures assumptions { bounds.new.assumptions ≡ take depth bounds.old.assumptions }
{
    while bounds.assumptions().len() > depth {
        bounds.undo();
    }
}

/// Whether the kept numbers have `x_i - x_j <= w`.
pub fn is_kept(bounds: &Bounds, i: u32, j: u32, w: i64) -> bool
    requires i { i < bounds.now.inputs }
    requires j { j < bounds.now.inputs }
    ensures { MatchBool result
        ((x : ℕ → ℤ) × MeetsAll x bounds.now.assumptions × ((x i -ℤ x j) ≤ℤ w))
        ((x : ℕ → ℤ) × MeetsAll x bounds.now.assumptions × (w <ℤ (x i -ℤ x j))) }
{
    let kept = bounds.kept();
    let first = kept[i as usize] as i64;
    let second = kept[j as usize] as i64;
    first - second <= w
}

/// A fact that shows `x_i - x_j <= w`, by the least bound that the assumptions imply, or `None` where they don't imply it.
pub fn implied(bounds: &mut Bounds, i: u32, j: u32, w: i64) -> Result<Option<Fact>, NoMemory>
    requires i { i < bounds.old.inputs }
    requires j { j < bounds.old.inputs }
    requires w { w ≤ℤ pos 1000000 }
    requires few_inputs { bounds.old.inputs ≤ 64 }
    requires room { length bounds.old.assumptions ≤ 65536 }
    ensures same { bounds.new ≡ bounds.old }
    ensures none { IfOk result (λ found. MatchOption found (Implies bounds.old.assumptions i j w → ⊥) (λ fact. fact_says fact i j w ≡ true)) }
    ensures right { IfOk result (λ found. MatchOption found (Unit {0}) (λ fact. is_right bounds.old.assumptions fact ≡ true)) }
    ensures small { IfOk result (λ found. MatchOption found (Unit {0}) (λ fact. IsFact bounds.old.inputs fact)) }
{
    // The kept numbers meet the least bound, so it is at least -63,000,063.
    let _kept = bounds.kept();
    let Some(least) = bounds.least(i, j) else {
        return Ok(None);
    };
    if least > w {
        return Ok(None);
    }
    let Some(chain) = bounds.chain(i, j)? else {
        return Ok(None);
    };
    Ok(Some(Fact {
        from: i as u16,
        to: j as u16,
        bound: least as i32,
        chain,
    }))
}
