//! Laws of assumptions on differences.
ghost use Rattle.std.specs.Prelude.{◌↔◌, ℕ, ℤ, Option, List};
ghost use Rattle.refutation.specs.declared.assumption.Assumption.{Assumption};
ghost use Rattle.diff_bounds.specs.Bounds.{CanBeMet, HasNoNegativeCycle, IsLeast, IsShortest};

/// Assumptions can be met exactly where no cycle is negative.
pub fn met_exactly_without_negative_cycles()
    ensures law { (edges : List Assumption) → CanBeMet edges ↔ HasNoNegativeCycle edges }
{}

/// Where assumptions can be met, the least bound that they imply is the sum of a shortest chain, and they imply no
/// bound exactly where there is no chain.
pub fn least_bounds_are_shortest_sums()
    ensures law { (edges : List Assumption) (i j : ℕ) (w : Option ℤ) → CanBeMet edges → IsLeast edges i j w ↔ IsShortest edges i j w }
{}
