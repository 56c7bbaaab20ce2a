ghost use Rattle.std.specs.Prelude.{◌≡◌, ◌<◌, ◌++◌, ◌-ℤ◌, length, get_or, OnOk};
ghost use Rattle.diff_bounds.specs.Search.{of, raised, HasChain, IsBounds, IsSearched};

use crate::search::{Question, Search};
use refutation::{Assumption, Chain};
use rl_time::NoMemory;

/// Adds the chain from what a search was asked for to its target at the end of a chain.
pub(crate) fn follow(
    chain: &mut Chain,
    edges: &[Assumption],
    kept: &[u64],
    search: &Search,
    question: Question,
    n: u32,
) -> Result<(), NoMemory>
    requires bounds { IsBounds n edges.now kept.now }
    requires asked { question.asked < n }
    requires low { get_or search.now.distances.items question.asked 0 < question.limit }
    requires whole { question.enough ≡ 0 }
    requires all { question.stop ≡ question.limit }
    requires searched { IsSearched n edges.now kept.now search.now question.target question.limit question.stop question.asked question.enough }
    ensures { OnOk result ((way : HasChain n edges.now question.asked question.target (raised (of kept.now) (of search.now.distances.items) question.asked -ℤ raised (of kept.now) (of search.now.distances.items) question.target))
        × (chain.new ≡ chain.old ++ way.chain)) }
{
    let _ = kept;
    let vias = search.vias.as_slice();
    let mut at = question.asked;
    while at != question.target {
        let via = vias[at as usize];
        chain.push(via)?;
        at = edges[via as usize].to;
    }
    Ok(())
}
