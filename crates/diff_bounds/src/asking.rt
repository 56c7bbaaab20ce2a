ghost use Rattle.std.specs.Prelude.{pos, ◌+ℤ◌, ◌-ℤ◌, ◌≡◌, ◌≤◌, ◌<◌, length, true, option_map, IfOk, IfSome};
ghost use Rattle.refutation.specs.Path.{runs, sum_of};
ghost use Rattle.diff_bounds.specs.Bounds.{IsLeast};
ghost use Rattle.diff_bounds.specs.Search.{IsSized, IsBounds, IsListed};

use crate::ends::Ends;
use crate::following::follow;
use crate::search::{Question, Search};
use refutation::{Assumption, Chain};
use rl_time::NoMemory;
use std::alloc::Global;

/// More than any chain of up to 64 assumptions, and a kept number less, can ask a number to be raised by.
const FAR: u64 = 200_000_000;

/// A number and how far it is raised, less another number.
fn difference(start: u64, distance: u64, end: u64) -> i64
    requires start { start ≤ 4000000000 }
    requires distance { distance ≤ 4000000000 }
    requires end { end ≤ 4000000000 }
    ensures { result ≡ ((pos start +ℤ pos distance) -ℤ pos end) }
{
    let start = start as i64;
    let distance = distance as i64;
    let end = end as i64;
    start + distance - end
}

/// The least bound on x_i - x_j that the assumptions imply.
pub(crate) fn least(
    edges: &[Assumption],
    ends: &Ends,
    kept: &[u64],
    i: u32,
    j: u32,
    n: u32,
    search: &mut Search,
) -> Option<i64>
    requires sized { IsSized n search.old }
    requires bounds { IsBounds n edges.now kept.now }
    requires listed { IsListed n edges.now ends.now }
    requires i_in { i < n }
    requires j_in { j < n }
    ensures least { IsLeast edges.now i j result }
    ensures sized { IsSized n search.new }
{
    let question = Question {
        target: j,
        limit: FAR,
        stop: FAR,
        asked: i,
        enough: 0,
    };
    search.run(edges, ends, kept, question, n);
    let distance = search.distance(i);
    if distance < FAR {
        Some(difference(kept[i as usize], distance, kept[j as usize]))
    } else {
        None
    }
}

/// A chain from i to j whose sum is the least bound on x_i - x_j, or `None` where there is no bound.
pub(crate) fn shortest(
    alloc: Global,
    edges: &[Assumption],
    ends: &Ends,
    kept: &[u64],
    i: u32,
    j: u32,
    n: u32,
    search: &mut Search,
) -> Result<Option<Chain>, NoMemory>
    requires sized { IsSized n search.old }
    requires bounds { IsBounds n edges.now kept.now }
    requires listed { IsListed n edges.now ends.now }
    requires i_in { i < n }
    requires j_in { j < n }
    ensures least { IfOk result (λ found. IsLeast edges.now i j (option_map (sum_of edges.now) found)) }
    ensures runs { IfOk result (λ found. IfSome found (λ chain. runs edges.now i j chain ≡ true)) }
    ensures short { IfOk result (λ found. IfSome found (λ chain. length chain < n)) }
    ensures sized { IsSized n search.new }
{
    let question = Question {
        target: j,
        limit: FAR,
        stop: FAR,
        asked: i,
        enough: 0,
    };
    search.run(edges, ends, kept, question, n);
    if search.distance(i) >= FAR {
        return Ok(None);
    }
    let mut chain = Chain::new(alloc);
    follow(&mut chain, edges, kept, search, question, n)?;
    Ok(Some(chain))
}
