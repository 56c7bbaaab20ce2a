ghost use Rattle.std.specs.Prelude.{◌≡◌, ◌<◌, ◌||◌, ℕ, ℤ, All, IfOk};
ghost use Rattle.tree_check.specs.Bounds.{AreCells, HasCell, cells_say, known};
ghost use Rattle.tree_check.specs.Valid.{listed, fact_says};

use crate::cell::Cell;
use refutation::Fact;
use rl_time::NoMemory;
use std::alloc::Global;
use std::marker::Model;

/// The facts of one leaf, looked up by the pair of their inputs.
#[derive(Debug, Drop)]
pub struct Table {
    cells: Vec<Cell>,
    stamp: u32,
}

impl Model for Table {
    ghost use Rattle.tree_check.specs.Bounds.{Bounds, AreCells};

    ghost Value = { Bounds };

    ghost view = { λ t. record { cells = t.cells.items; stamp = t.stamp } };

    ghost invariant = { λ t. AreCells t.cells.items t.stamp };
}

impl Table {
    /// A table before the first leaf.
    pub fn new(alloc: Global) -> Result<Table, NoMemory>
        ensures { IfOk result (λ t. t.stamp ≡ 0) }
    {
        Ok(Table {
            cells: empty_cells(alloc)?,
            stamp: 0,
        })
    }

    /// Goes to a leaf with these facts. Its stamp is greater than those before.
    pub fn enter(&mut self, stamp: u32, facts: &[Fact])
        requires newer { self.old.stamp < stamp }
        requires cells { All HasCell facts.now }
        ensures stamp { self.new.stamp ≡ stamp }
        ensures known { (i j : ℕ) (w : ℤ) → known self.new i j w ≡ listed facts.now i j w }
    {
        enter_all(&mut self.cells, self.stamp, stamp, facts);
        self.stamp = stamp;
    }

    /// Whether the facts say that input i is at most w cycles later than input j.
    pub fn knows(&self, i: u32, j: u32, w: i64) -> bool
        ensures { result ≡ known self.now i j w }
    {
        if i < 64 && j < 64 {
            let cell = self.cells[i as usize * 64 + j as usize];
            cell.stamp == self.stamp && cell.bound <= w
        } else {
            false
        }
    }
}

/// The cells before the first leaf.
fn empty_cells(alloc: Global) -> Result<Vec<Cell>, NoMemory>
    ensures { IfOk result (λ cells. AreCells cells.items 0) }
{
    let mut cells = Vec::new(alloc);
    for _made in 0..4096_u32 {
        cells.push(Cell { stamp: 0, bound: 0 })?;
    }
    Ok(cells)
}

/// Writes the facts of a leaf into the cells, whose stamps are less than the leaf's.
fn enter_all(cells: &mut [Cell], old: u32, stamp: u32, facts: &[Fact])
    requires cells { AreCells cells.old old }
    requires newer { old < stamp }
    requires names { All HasCell facts.now }
    ensures cells { AreCells cells.new stamp }
    ensures known { (i j : ℕ) (w : ℤ) → cells_say cells.new stamp i j w ≡ listed facts.now i j w }
{
    for fact in facts {
        enter_one(cells, stamp, fact);
    }
}

/// Writes one fact into its cell, unless that has a bound of the same stamp which is no greater.
fn enter_one(cells: &mut [Cell], stamp: u32, fact: &Fact)
    requires cells { AreCells cells.old stamp }
    requires names { HasCell fact.now }
    ensures cells { AreCells cells.new stamp }
    ensures known { (i j : ℕ) (w : ℤ) →
        cells_say cells.new stamp i j w ≡ (cells_say cells.old stamp i j w || fact_says fact.now i j w) }
{
    let place = fact.from as usize * 64 + fact.to as usize;
    let cell = cells[place];
    let bound = i64::from(fact.bound);
    if cell.stamp == stamp && cell.bound <= bound {
        return;
    }
    cells[place] = Cell { stamp, bound };
}
