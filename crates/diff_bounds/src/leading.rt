ghost use Rattle.std.specs.Prelude.{pos, ◌+ℤ◌, ◌-ℤ◌, ◌≤ℤ◌, ◌≡◌, ◌≤◌, ◌<◌, ℕ, length, get_or};
ghost use Rattle.diff_bounds.specs.Search.{of, AreMet, IsLead, IsListed};

use crate::ends::Ends;
use refutation::Assumption;

/// By how much the difference of the kept numbers can grow before it is over an assumption that they meet.
pub(crate) fn slack(edge: Assumption, kept: &[u64]) -> u64
    requires from { edge.from < length kept.now }
    requires to { edge.to < length kept.now }
    requires small { (k : ℕ) → k < length kept.now → get_or kept.now k 0 ≤ 63000063 }
    requires high { edge.bound ≤ℤ pos 1000001 }
    requires met { (pos (get_or kept.now edge.from 0) -ℤ pos (get_or kept.now edge.to 0)) ≤ℤ edge.bound }
    ensures slack { (pos (get_or kept.now edge.from 0) +ℤ pos result) ≡ (edge.bound +ℤ pos (get_or kept.now edge.to 0)) }
    ensures small { result ≤ 65000000 }
{
    let start = kept[edge.from as usize] as i64;
    let end = kept[edge.to as usize] as i64;
    (edge.bound + end - start) as u64
}

/// The least slack of the listed assumptions that begin at k, but no more than `most`.
pub(crate) fn lead(
    edges: &[Assumption],
    ends: &Ends,
    kept: &[u64],
    k: u32,
    n: u32,
    most: u64,
) -> u64
    requires few { length edges.now ≤ 65536 }
    requires long { length kept.now ≡ n }
    requires listed { IsListed n edges.now ends.now }
    requires met { AreMet n edges.now (of kept.now) }
    requires small { (k : ℕ) → k < n → get_or kept.now k 0 ≤ 63000063 }
    requires there { k < n }
    ensures most { result ≤ most }
    ensures lead { IsLead edges.now (of kept.now) k result }
{
    let _ = n;
    let mut least = most;
    let earlier = ends.from.earlier.as_slice();
    let mut left = ends.from.lasts.as_slice()[k as usize];
    while left > 0 {
        let number = left - 1;
        least = least.min(slack(edges[number as usize], kept));
        left = earlier[number as usize];
    }
    least
}
