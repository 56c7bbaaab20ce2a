ghost use Rattle.std.specs.Prelude.{◌≡◌, ◌≤◌, length, All};
ghost use Rattle.refutation.specs.Path.{shows, is_negative};
ghost use Rattle.tree_check.specs.Small.{IsSmall};

use refutation::Assumption;

/// Whether the chain runs on the path from i to j, with a sum of at most w.
pub fn shows(path: &[Assumption], chain: &[u32], i: u32, j: u32, w: i64) -> bool
    requires small { All IsSmall path.now }
    requires short { length chain.now ≤ 64 }
    ensures { result ≡ shows path.now chain.now i j w }
{
    let mut at = i;
    let mut sum: i64 = 0;
    for k in chain {
        match path.get(*k as usize) {
            Some(a) => {
                if a.from != at {
                    return false;
                }
                at = a.to;
                sum += a.bound;
            }
            None => return false,
        }
    }
    at == j && sum <= w
}

/// Whether the chain runs from an input to itself, with a negative sum.
pub fn is_negative(path: &[Assumption], chain: &[u32]) -> bool
    requires small { All IsSmall path.now }
    requires short { length chain.now ≤ 64 }
    ensures { result ≡ is_negative path.now chain.now }
{
    match chain.first() {
        Some(k) => match path.get(*k as usize) {
            Some(a) => shows(path, chain, a.from, a.from, -1),
            None => false,
        },
        None => false,
    }
}
