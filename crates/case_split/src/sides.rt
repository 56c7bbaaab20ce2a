//! What is assumed on the two sides of a comparison.
ghost use Rattle.std.specs.Prelude.{◌≡◌, ◌≤◌};
ghost use Rattle.case_split.specs.Steps.{yes_assumption, no_assumption};

use crate::comparison::Comparison;
use refutation::Assumption;

/// What is assumed where the comparison is so.
pub fn yes_side(comparison: Comparison) -> Assumption
    requires from_cycles { comparison.from_cycles ≤ 1000000 }
    requires to_cycles { comparison.to_cycles ≤ 1000000 }
    ensures { result ≡ yes_assumption comparison }
{
    Assumption {
        from: comparison.from,
        to: comparison.to,
        bound: i64::from(comparison.to_cycles) - i64::from(comparison.from_cycles),
    }
}

/// What is assumed where it isn't.
pub fn no_side(comparison: Comparison) -> Assumption
    requires from_cycles { comparison.from_cycles ≤ 1000000 }
    requires to_cycles { comparison.to_cycles ≤ 1000000 }
    ensures { result ≡ no_assumption comparison }
{
    let width = i64::from(comparison.to_cycles) - i64::from(comparison.from_cycles);
    Assumption {
        from: comparison.to,
        to: comparison.from,
        bound: -width - 1,
    }
}
