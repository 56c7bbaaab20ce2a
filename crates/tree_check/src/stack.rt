ghost use Rattle.std.specs.Prelude.{◌≡◌, ◌≤◌, ◌∷◌, [], List, drop, IfOk, OnOk, All};
ghost use Rattle.refutation.specs.Cases.{yes_side, no_side};
ghost use Rattle.refutation.specs.Limits.{IsSmallBound};
ghost use Rattle.net_model.specs.declared.assume.Assume.{Assume};
ghost use Rattle.tree_check.specs.Small.{IsSmall};
ghost use Rattle.tree_check.specs.Stack.{pending, IsStack};
ghost use Rattle.tree_check.specs.Valid.{root};
ghost use Rattle.std.specs.Bool.{MatchBool};
ghost use Rattle.refutation.specs.declared.assumption.Assumption.{Assumption};

use crate::later::Later;
use net_model::Assume;
use refutation::Assumption;
use rl_time::NoMemory;
use std::alloc::Global;
use std::marker::Model;

/// The paths of the pending subtrees, the next one first: at least one.
#[derive(Debug, Drop)]
pub struct Stack {
    path: Vec<Assumption>,
    later: Vec<Later>,
}

impl Model for Stack {
    ghost use Rattle.std.specs.Prelude.{List};
    ghost use Rattle.refutation.specs.Cases.{Path};
    ghost use Rattle.tree_check.specs.Stack.{pending, IsStack};

    ghost Value = { List Path };

    ghost view = { λ s. pending s.path.items s.later.items };

    ghost invariant = { λ s. IsStack s.path.items s.later.items };
}

/// The premises as assumptions.
fn root(alloc: Global, premises: &[Assume]) -> Result<Vec<Assumption>, NoMemory>
    requires { All (λ p. p.by ≤ 1000000) premises.now }
    ensures path { IfOk result (λ path. path.items ≡ root premises.now) }
    ensures small { IfOk result (λ path. All IsSmall path.items) }
{
    let mut path = Vec::new(alloc);
    for p in premises {
        path.push(Assumption {
            from: p.from,
            to: p.to,
            bound: i64::from(p.by),
        })?;
    }
    Ok(path)
}

impl Stack {
    /// The path of a whole tree.
    pub fn new(alloc: Global, premises: &[Assume]) -> Result<Stack, NoMemory>
        requires { All (λ p. p.by ≤ 1000000) premises.now }
        ensures { IfOk result (λ s. s ≡ root premises.now ∷ []) }
    {
        let path = root(alloc, premises)?;
        Ok(Stack {
            path,
            later: Vec::new(alloc),
        })
    }

    /// The path of the next subtree.
    pub fn path(&self) -> &[Assumption]
        ensures first { self.now ≡ result.now ∷ drop 1 self.now }
        ensures small { All IsSmall result.now }
    {
        self.path.as_slice()
    }

    /// The next subtree is a split: the paths of its two sides take the place of its own.
    pub fn split(&mut self, i: u32, j: u32, w: i64) -> Result<(), NoMemory>
        requires { IsSmallBound w }
        ensures { (path : List Assumption) (paths : List (List Assumption)) → self.old ≡ path ∷ paths →
            OnOk result (self.new ≡ yes_side path i j w ∷ no_side path i j w ∷ paths) }
    {
        self.later.push(Later {
            depth: self.path.len(),
            side: Assumption {
                from: j,
                to: i,
                bound: -w - 1,
            },
        })?;
        self.path.push(Assumption {
            from: i,
            to: j,
            bound: w,
        })?;
        Ok(())
    }

    /// The next subtree is done: whether another is pending.
    pub fn next(&mut self) -> Result<bool, NoMemory>
        ensures more { IfOk result (λ more. MatchBool more (self.new ≡ drop 1 self.old) (drop 1 self.old ≡ [])) }
    {
        match self.later.pop() {
            Some(l) => {
                self.path.truncate(l.depth);
                self.path.push(l.side)?;
                Ok(true)
            }
            None => Ok(false),
        }
    }
}
