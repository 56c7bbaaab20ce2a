ghost use Rattle.std.specs.Prelude.{◌≡◌, ◌+◌, ◌<◌, ◌≤◌, ℕ, length, IfOk};
ghost use Rattle.std.specs.List.{All};
ghost use Rattle.case_split.specs.Gathered.{fact_at, facts_in, AreLeastPlaces, AreGathered};
ghost use Rattle.case_split.specs.Task.{IsFact};

use refutation::{Fact, Facts};
use rl_time::NoMemory;
use std::alloc::Global;

/// The facts of a leaf: of the derived facts the one with the least bound for each pair of inputs, in the order of the pairs.
pub fn gathered(alloc: Global, inputs: usize, facts: &[Fact]) -> Result<Facts, NoMemory>
    requires few_inputs { inputs ≤ 64 }
    requires facts { All (IsFact inputs) facts.now }
    ensures { IfOk result (λ gathered. AreGathered inputs facts.now gathered) }
{
    let places = least_places(alloc, inputs, facts)?;
    let mut gathered = Facts::new(alloc);
    for cell in &places {
        if let Some(place) = cell {
            gathered.push(copied(alloc, &facts[*place])?)?;
        }
    }
    Ok(gathered)
}

/// A cell for each pair of inputs, 64 for each first of a pair: the place of the fact on their difference with the least bound.
fn least_places(
    alloc: Global,
    inputs: usize,
    facts: &[Fact],
) -> Result<Vec<Option<usize>>, NoMemory>
    requires few_inputs { inputs ≤ 64 }
    requires facts { All (IsFact inputs) facts.now }
    ensures { IfOk result (λ cells. AreLeastPlaces inputs facts.now (length facts.now) cells.items) }
{
    let mut cells = vec![in alloc; None; inputs * 64]?;
    for place in 0..facts.len() {
        note(&mut cells, facts, place);
    }
    Ok(cells)
}

/// Notes the fact at a place in the cell of its inputs, unless that has one with no greater bound.
fn note(cells: &mut [Option<usize>], facts: &[Fact], place: usize)
    requires before { (n : ℕ) × AreLeastPlaces n facts.now place cells.old × All (IsFact n) facts.now }
    requires within { place < length facts.now }
    ensures { (n : ℕ) → AreLeastPlaces n facts.now place cells.old → All (IsFact n) facts.now → AreLeastPlaces n facts.now (place + 1) cells.new }
{
    let fact = &facts[place];
    let cell = usize::from(fact.from) * 64 + usize::from(fact.to);
    if let Some(least) = cells[cell] {
        if facts[least].bound <= fact.bound {
            return;
        }
    }
    cells[cell] = Some(place);
}

/// A copy of a fact.
fn copied(alloc: Global, fact: &Fact) -> Result<Fact, NoMemory>
    ensures { IfOk result (λ copy. copy ≡ fact.now) }
{
    Ok(Fact {
        from: fact.from,
        to: fact.to,
        bound: fact.bound,
        chain: fact.chain.copy(alloc)?,
    })
}
