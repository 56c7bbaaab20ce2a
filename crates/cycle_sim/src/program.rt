ghost use Rattle.std.specs.Prelude.{◌≡◌, ◌≢◌, ◌≤◌, ◌<◌, ◌+◌, ◌*◌, ◌/◌, ◌^◌, ◌++◌, ◌∷◌, [], ℕ, length, slice_get, Some, OnOk, IfOk, IfSome};
ghost use Rattle.circuit.specs.Meaning.{activate_all, upto};
ghost use Rattle.levels.specs.Levels.{HasAllLevels};
ghost use Rattle.cycle_sim.specs.Operations.{ArePlaces, IsPlaced, target_place, IsSound, IsWithin, IsPlan, HasTap, with_tap, with_operation};
ghost use Rattle.cycle_sim.specs.declared.operation.Tap.{Tap};

use crate::operation::{Formula, Operation, Places, Tap};
use crate::performing::{load, load_taps, perform, store};
use circuit::{Module, Target};
use levels::Levels;
use rl_time::NoMemory;
use std::alloc::Global;
use std::marker::Model;

/// No more places than this, so that twice a place and one more is a `u32`.
const MOST_PLACES: usize = 1 << 31;

/// A plan, and room for a level at each of its places. What levels are there between runs is no matter.
#[derive(Drop)]
pub struct Program {
    places: Places,
    operations: Vec<Operation>,
    taps: Vec<Tap>,
    values: Vec<bool>,
}

impl Model for Program {
    ghost use Rattle.std.specs.Prelude.{length};
    ghost use Rattle.cycle_sim.specs.Operations.{Plan, plan, IsSound};

    ghost Value = { Plan };

    ghost view = { λ p. plan p.places p.operations.items p.taps.items p.values.items };

    ghost invariant = { λ p. IsSound (plan p.places p.operations.items p.taps.items p.values.items) };
}

impl Program {
    /// The plan of no assign, with the places of the module.
    pub fn empty(alloc: Global, m: &Module) -> Result<Program, NoMemory>
        ensures places { IfOk result (λ p. ArePlaces m.now p.places) }
        ensures operations { IfOk result (λ p. p.operations ≡ []) }
        ensures taps { IfOk result (λ p. p.taps ≡ []) }
    {
        m.rules();
        let inputs = m.inputs().len();
        let wires = m.wires().len();
        let outs = m.outputs().len();
        Ok(Program {
            places: Places {
                inputs: inputs as u32,
                wires: wires as u32,
                outs: outs as u32,
            },
            operations: Vec::with_capacity(alloc, m.assigns().len())?,
            taps: Vec::new(alloc),
            values: vec![in alloc; false; 1 + inputs + wires + outs]?,
        })
    }

    /// What is true of every plan.
    pub fn rules(&self)
        ensures { IsSound self.now }
    {
        let _ = &self.operations;
    }

    /// The place of a wire or an output.
    pub fn target(&self, target: Target) -> u32
        requires { IsPlaced self.now.places target }
        ensures { result ≡ target_place self.now.places target }
    {
        match target {
            Target::Wire(wire) => 1 + self.places.inputs + wire,
            Target::Out(out) => 1 + self.places.inputs + self.places.wires + out,
        }
    }

    /// A new place. 2^31 places are out of memory.
    pub fn place(&mut self) -> Result<u32, NoMemory>
        ensures place { IfOk result (λ to. to ≡ self.old.room) }
        ensures few { IfOk result (λ to. to < 2 ^ 31) }
        ensures room { OnOk result (self.new ≡ record self.old { room = self.old.room + 1 }) }
    {
        add_place(&mut self.values)
    }

    /// A new place with a tap.
    pub fn tap(&mut self, reg: u32, bit: u32) -> Result<u32, NoMemory>
        ensures place { IfOk result (λ to. to ≡ self.old.room) }
        ensures few { IfOk result (λ to. to < 2 ^ 31) }
        ensures tap { OnOk result (self.new ≡ with_tap self.old reg bit) }
    {
        let to = add_place(&mut self.values)?;
        self.taps.push(Tap { to, reg, bit })?;
        Ok(to)
    }

    /// The place of the last tap, where it is of this bit of a register.
    pub fn last_tap(&self, reg: u32, bit: u32) -> Option<u32>
        ensures tap { IfSome result (λ to. HasTap self.now reg bit to) }
        ensures few { IfSome result (λ to. to < 2 ^ 31) }
    {
        let count = self.taps.len();
        if count == 0 {
            return None;
        }
        let tap = self.taps[count - 1];
        if tap.reg == reg && tap.bit == bit {
            Some(tap.to)
        } else {
            None
        }
    }

    /// Adds an operation.
    pub fn operate(&mut self, to: u32, formula: Formula) -> Result<(), NoMemory>
        requires place { to < self.old.room }
        requires within { IsWithin self.old.room formula }
        requires apart { (j : ℕ) (t : Tap) → slice_get self.old.taps j ≡ Some t → to ≢ t.to }
        ensures { OnOk result (self.new ≡ with_operation self.old to formula) }
    {
        self.operations.push(Operation { to, formula })?;
        Ok(())
    }

    /// Gives each wire and output its expression's level, by activations of all assigns in order. Answers how many levels of wires
    /// and outputs change.
    pub fn run(&mut self, m: &Module, levels: &mut Levels) -> usize
        requires plan { IsPlan m.now self.old }
        requires levels { HasAllLevels m.now levels.old }
        ensures same_plan { self.new ≡ self.old }
        ensures levels { levels.new ≡ activate_all m.now levels.old (upto 0 (length m.now.assigns)) }
    {
        m.rules();
        load(self.values.as_mut_slice(), self.places, levels);
        load_taps(self.values.as_mut_slice(), &self.taps, levels);
        perform(self.values.as_mut_slice(), &self.operations);
        store(&self.values, self.places, levels)
    }
}

// Another level, low, at the end.
fn add_place(values: &mut Vec<bool>) -> Result<u32, NoMemory>
    requires { length values.old.items ≤ 2 ^ 31 }
    ensures few { length values.new.items ≤ 2 ^ 31 }
    ensures more { length values.old.items ≤ length values.new.items }
    ensures place { IfOk result (λ to. to ≡ length values.old.items) }
    ensures below { IfOk result (λ to. to < 2 ^ 31) }
    ensures room { OnOk result (length values.new.items ≡ length values.old.items + 1) }
{
    let count = values.len();
    if count >= MOST_PLACES {
        return Err(NoMemory);
    }
    values.push(false)?;
    Ok(count as u32)
}
