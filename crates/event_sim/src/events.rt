ghost use Rattle.std.specs.Prelude.{◌≡◌, ◌≢◌, ◌<◌, ◌≤◌, ℕ, true, false, length, map, slice_index_or, IfOk};
ghost use Rattle.circuit.specs.Meaning as spec;
ghost use Rattle.circuit.specs.Meaning.{IsSettled, row_at_start};
ghost use Rattle.levels.specs.Levels.{HasAllLevels, all_low};
ghost use Rattle.event_sim.specs.Orders.{numbered_order};
ghost use Rattle.event_sim.specs.Passes.{ArePasses};
ghost use Rattle.event_sim.specs.Standing.{edge_after};

use crate::passes::{is_settled, run_passes};
use circuit::Module;
use levels::laws::few_items;
use levels::{Levels, Marks, Readers, all_low, readers_of};
use marked_steps::{activate, clock_edge, is_busy, set_inputs};
use rl_time::NoMemory;
use std::alloc::Global;
use std::marker::Model;

/// A simulation of a module by single activations of its assigns, in an order that the caller chooses.
///
/// `started` is whether a clock edge was made, and `busy` whether many registers changed at the last one. `marks` are the assigns
/// and registers that may not be up to date. `moving` and `firsts` are room for the registers that change at a clock edge, and what
/// they take.
#[derive(Drop)]
pub struct Events<'a> {
    module: &'a Module,
    started: bool,
    busy: bool,
    levels: Levels,
    readers: Readers,
    marks: Marks,
    moving: Marks,
    firsts: Vec<bool>,
}

impl<'a> Model for Events<'a> {
    ghost use Rattle.event_sim.specs.Standing.{Standing, IsReady};
    ghost use Rattle.event_sim.specs.Code.{standing_code};

    ghost Value = { Standing };

    ghost coded = { standing_code };

    ghost view = { λ e. record { circuit = e.module.now; started = e.started; state = e.levels } };

    ghost invariant = { λ e. IsReady e.module.now e.started e.levels e.readers.starts.items e.readers.lists e.readers.tapped e.marks e.moving e.firsts.items };
}

impl<'a> Events<'a> {
    /// A simulation before the first clock edge: all levels are low. It takes all its memory here.
    pub fn new(alloc: Global, m: &'a Module) -> Result<Events<'a>, NoMemory>
        ensures same_module { IfOk result (λ e. e.circuit ≡ m.now) }
        ensures before_cycle_0 { IfOk result (λ e. e.started ≡ false) }
        ensures low { IfOk result (λ e. e.state ≡ all_low m.now) }
    {
        few_items(m);
        let assigns = m.assigns().len();
        let regs = m.regs().len();
        Ok(Events {
            module: m,
            started: false,
            busy: false,
            levels: Levels::low(alloc, m)?,
            readers: readers_of(alloc, m)?,
            marks: Marks::all(alloc, assigns + regs)?,
            moving: Marks::none(alloc, regs)?,
            firsts: all_low(alloc, regs)?,
        })
    }

    /// A clock edge, under one level for each input. The first one leaves the registers at 0, and each later one, which comes when
    /// all is settled, gives all registers their next values at once. Wires and outputs keep their levels.
    pub fn edge(&mut self, inputs: &[bool])
        requires one_for_each { length inputs.now ≡ length self.old.circuit.inputs }
        requires settled { self.old.started ≡ true → IsSettled self.old.circuit self.old.state }
        ensures same_module { self.new.circuit ≡ self.old.circuit }
        ensures started { self.new.started ≡ true }
        ensures state { self.new.state ≡ edge_after self.old.circuit self.old.started self.old.state inputs.now }
        ensures first { self.old.started ≡ false → self.new.state.regs ≡ map row_at_start self.old.circuit.regs }
    {
        self.edge_changes(inputs);
    }

    /// The same. Answers whether a level may have changed.
    pub(crate) fn edge_changes(&mut self, inputs: &[bool]) -> bool
        requires one_for_each { length inputs.now ≡ length self.old.circuit.inputs }
        requires settled { self.old.started ≡ true → IsSettled self.old.circuit self.old.state }
        ensures same_module { self.new.circuit ≡ self.old.circuit }
        ensures started { self.new.started ≡ true }
        ensures state { self.new.state ≡ edge_after self.old.circuit self.old.started self.old.state inputs.now }
        ensures first { self.old.started ≡ false → self.new.state.regs ≡ map row_at_start self.old.circuit.regs }
        ensures still { result ≡ false → (self.old.started ≡ true) × (self.new.state ≡ self.old.state) }
    {
        let started = self.started;
        let moved = self.move_registers();
        let same = self.levels.has_inputs(inputs);
        self.take_inputs(inputs);
        moved || !same || !started
    }

    // The registers at a clock edge, the first one or not. Answers whether one changes.
    fn move_registers(&mut self) -> bool
        ensures same_module { self.new.circuit ≡ self.old.circuit }
        ensures started { self.new.started ≡ self.old.started }
        ensures state { self.new.state ≡ edge_after self.old.circuit self.old.started self.old.state self.old.state.inputs }
        ensures still { result ≡ false → self.new.state ≡ self.old.state }
    {
        if self.started {
            let changed = clock_edge(
                self.module,
                &self.readers,
                &mut self.levels,
                &mut self.marks,
                &mut self.moving,
                self.firsts.as_mut_slice(),
                self.busy,
            );
            self.busy = is_busy(self.module, changed);
            changed > 0
        } else {
            false
        }
    }

    // The inputs at a clock edge.
    fn take_inputs(&mut self, inputs: &[bool])
        requires { length inputs.now ≡ length self.old.circuit.inputs }
        ensures same_module { self.new.circuit ≡ self.old.circuit }
        ensures started { self.new.started ≡ true }
        ensures state { self.new.state ≡ record self.old.state { inputs = inputs.now } }
    {
        set_inputs(
            self.module,
            &self.readers,
            &mut self.levels,
            &mut self.marks,
            inputs,
        );
        self.started = true;
    }

    /// An activation of assign k: its target takes the level of its expression. Answers whether that changes the target's level.
    pub fn activate(&mut self, k: u32) -> bool
        requires { k < length self.old.circuit.assigns }
        ensures same_module { self.new.circuit ≡ self.old.circuit }
        ensures started { self.new.started ≡ self.old.started }
        ensures state { self.new.state ≡ spec.activate self.old.circuit self.old.state k }
        ensures same { result ≡ false → self.new.state ≡ self.old.state }
        ensures changed { result ≡ true → self.new.state ≢ self.old.state }
    {
        activate(
            self.module,
            &self.readers,
            &mut self.levels,
            &mut self.marks,
            k as usize,
        )
    }

    /// Whether each wire and each output has its expression's level.
    pub fn settled(&self) -> bool
        ensures yes { result ≡ true → IsSettled self.now.circuit self.now.state }
        ensures no { result ≡ false → IsSettled self.now.circuit self.now.state → ⊥ }
    {
        is_settled(self.module, &self.levels)
    }

    /// The level of an output.
    pub fn level(&self, out: u32) -> bool
        requires { out < length self.now.circuit.outputs }
        ensures { result ≡ slice_index_or self.now.state.outs out false }
    {
        self.levels.out(out)
    }

    /// The levels of the outputs, in order.
    pub fn outs(&self) -> &[bool]
        ensures levels { result.now ≡ self.now.state.outs }
        ensures count { length result.now ≡ length self.now.circuit.outputs }
    {
        self.levels.outs()
    }

    /// Makes passes over all assigns in a numbered order until one changes nothing, and answers the number of activations. Order 0 is
    /// that of the module, order 1 is it reversed, and order N begins at assign N mod the number of assigns.
    pub fn run_passes(&mut self, order: u64) -> u64
        ensures same_module { self.new.circuit ≡ self.old.circuit }
        ensures started { self.new.started ≡ self.old.started }
        ensures passes { ArePasses self.old.circuit (numbered_order (length self.old.circuit.assigns) order) self.old.state self.new.state result }
        ensures settled { IsSettled self.old.circuit self.new.state }
        ensures few { result ≤ 17196781632 }
    {
        run_passes(
            self.module,
            &self.readers,
            &mut self.levels,
            &mut self.marks,
            order,
        )
    }
}
