ghost use Rattle.std.specs.Prelude.{◌≡◌, ◌<◌, ◌≤◌, ◌∷◌, ℕ, Bool, true, false, [], List, length, map, replicate, slice_index_or, slice_set, IfOk};
ghost use Rattle.circuit.specs.Meaning as spec;
ghost use Rattle.circuit.specs.Meaning.{State, HasLevels, IsSettled, rows_after, row_at_start};
ghost use Rattle.circuit.specs.View.{logic};
ghost use Rattle.levels.specs.Levels.{HasAllLevels, HasPlace, all_low, shifted};

use crate::row::{Row, all_low, read};
use circuit::{Bit, Module, Reg, Target};
use rl_time::NoMemory;
use std::alloc::Global;
use std::marker::Model;

/// The level of each input, register bit, wire and output of a module.
#[derive(Drop)]
pub struct Levels {
    inputs: Vec<bool>,
    regs: Vec<Row>,
    wires: Vec<bool>,
    outs: Vec<bool>,
}

impl Model for Levels {
    ghost use Rattle.circuit.specs.Meaning.{State};

    ghost Value = { State };

    ghost view = { λ s. record { inputs = s.inputs.items; regs = s.regs.items; wires = s.wires.items; outs = s.outs.items } };
}

// The bits of all registers in cycle 0.
fn low_rows(alloc: Global, regs: &[Reg]) -> Result<Vec<Row>, NoMemory>
    ensures { IfOk result (λ rows. rows.items ≡ map row_at_start regs.now) }
{
    let mut rows = Vec::new(alloc);
    for reg in regs {
        rows.push(Row::low(alloc, reg.width())?)?;
    }
    Ok(rows)
}

impl Levels {
    /// All low.
    pub fn low(alloc: Global, m: &Module) -> Result<Levels, NoMemory>
        ensures all { IfOk result (HasAllLevels m.now) }
        ensures low { IfOk result (λ s. s ≡ all_low m.now) }
    {
        Ok(Levels {
            inputs: all_low(alloc, m.inputs().len())?,
            regs: low_rows(alloc, m.regs())?,
            wires: all_low(alloc, m.wires().len())?,
            outs: all_low(alloc, m.outputs().len())?,
        })
    }

    /// The level of an output.
    pub fn out(&self, out: u32) -> bool
        ensures { result ≡ slice_index_or self.now.outs out false }
    {
        read(&self.outs, out)
    }

    /// The levels of the outputs, in order.
    pub fn outs(&self) -> &[bool]
        ensures { result.now ≡ self.now.outs }
    {
        self.outs.as_slice()
    }

    /// The levels of the inputs, in order.
    pub fn inputs(&self) -> &[bool]
        ensures { result.now ≡ self.now.inputs }
    {
        self.inputs.as_slice()
    }

    /// The levels of the wires, in order.
    pub fn wires(&self) -> &[bool]
        ensures { result.now ≡ self.now.wires }
    {
        self.wires.as_slice()
    }

    /// The level of a bit of a register, low where there is none.
    pub fn register_bit(&self, reg: u32, place: u32) -> bool
        ensures { result ≡ slice_index_or (slice_index_or self.now.regs reg []) place false }
    {
        match self.regs.get(reg as usize) {
            Some(row) => row.bit(place),
            None => false,
        }
    }

    /// The level of an expression.
    pub fn level(&self, bit: &Bit) -> bool
        ensures { result ≡ spec.level self.now (logic bit.now) }
    {
        match bit {
            Bit::Zero => false,
            Bit::One => true,
            Bit::Input(place) => read(&self.inputs, *place),
            Bit::Wire(place) => read(&self.wires, *place),
            Bit::Reg(reg, place) => self.register_bit(*reg, *place),
            Bit::Not(x) => !self.level(x),
            Bit::And(x, y) => self.level(x) && self.level(y),
            Bit::Or(x, y) => self.level(x) || self.level(y),
        }
    }

    /// Gives a wire or an output this level.
    pub fn put(&mut self, target: Target, level: bool)
        requires { HasPlace self.old target }
        ensures { self.new ≡ spec.put self.old target level }
    {
        match target {
            Target::Wire(place) => self.wires[place as usize] = level,
            Target::Out(place) => self.outs[place as usize] = level,
        }
    }

    /// The level of a wire or an output.
    pub fn at(&self, target: Target) -> bool
        ensures { result ≡ spec.at self.now target }
    {
        match target {
            Target::Wire(place) => read(&self.wires, place),
            Target::Out(place) => read(&self.outs, place),
        }
    }

    /// Whether the inputs have these levels.
    pub fn has_inputs(&self, inputs: &[bool]) -> bool
        ensures { result ≡ true → inputs.now ≡ self.now.inputs }
    {
        inputs == self.inputs.as_slice()
    }

    /// The level of an input.
    pub fn input(&self, place: usize) -> bool
        requires { place < length self.now.inputs }
        ensures { result ≡ slice_index_or self.now.inputs place false }
    {
        self.inputs[place]
    }

    /// Gives an input this level.
    pub fn set_input(&mut self, place: usize, level: bool)
        requires { place < length self.old.inputs }
        ensures { self.new ≡ record self.old { inputs = slice_set self.old.inputs place level } }
    {
        self.inputs[place] = level;
    }

    /// Gives the inputs these levels.
    pub fn set_inputs(&mut self, inputs: &[bool])
        requires { length inputs.now ≡ length self.old.inputs }
        ensures { self.new ≡ record self.old { inputs = inputs.now } }
    {
        self.inputs.copy_from_slice(inputs);
    }

    /// Gives the wires these levels.
    pub fn set_wires(&mut self, wires: &[bool])
        requires { length wires.now ≡ length self.old.wires }
        ensures { self.new ≡ record self.old { wires = wires.now } }
    {
        self.wires.copy_from_slice(wires);
    }

    /// Gives the outputs these levels.
    pub fn set_outs(&mut self, outs: &[bool])
        requires { length outs.now ≡ length self.old.outs }
        ensures { self.new ≡ record self.old { outs = outs.now } }
    {
        self.outs.copy_from_slice(outs);
    }

    /// How many bits a register has.
    pub fn width(&self, reg: usize) -> u32
        requires { reg < length self.now.regs }
        ensures { result ≡ length (slice_index_or self.now.regs reg []) }
    {
        self.regs[reg].width()
    }

    /// The first bit of a register from this one on that a shift changes, if bit 0 takes this level.
    pub fn change(&self, reg: usize, first: bool, from: usize) -> usize
        requires { reg < length self.now.regs }
        ensures low { from ≤ result }
        ensures none { let row = slice_index_or self.now.regs reg [] in (j : ℕ) → from ≤ j → j < result → j < length row →
            slice_index_or (first ∷ row) j false ≡ slice_index_or row j false }
    {
        self.regs[reg].change(first, from)
    }

    /// Whether a shift changes a bit of a register, if bit 0 takes this level.
    pub fn changes(&self, reg: usize, first: bool) -> bool
        requires { reg < length self.now.regs }
        ensures { let row = slice_index_or self.now.regs reg [] in result ≡ false → shifted first row ≡ row }
    {
        self.change(reg, first, 0) < self.width(reg) as usize
    }

    /// A register takes this level.
    pub fn shift(&mut self, reg: usize, first: bool)
        requires { reg < length self.old.regs }
        ensures { let row = slice_index_or self.old.regs reg [] in
            self.new ≡ record self.old { regs = slice_set self.old.regs reg (shifted first row) } }
    {
        self.regs[reg].shift(first);
    }
}
