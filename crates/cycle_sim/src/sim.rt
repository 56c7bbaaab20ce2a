ghost use Rattle.std.specs.Prelude.{◌≡◌, ◌<◌, ◌≤◌, ◌+◌, ℕ, true, length, IfOk, Some, None, IsSome};
ghost use Rattle.circuit.specs.Meaning.{State, IsNext};
ghost use Rattle.cycle_sim.specs.Standing.{IsStep, output_level};
ghost use Rattle.levels.specs.Marked.{IsUnmarked};

use crate::compiling::compile;
use crate::program::Program;
use crate::settle::settle;
use circuit::Module;
use levels::laws::few_items;
use levels::{Levels, Marks, Readers, all_low, readers_of};
use marked_steps::{clock_edge, is_busy, set_inputs};
use rl_time::NoMemory;
use std::alloc::Global;
use std::marker::Model;

/// A simulation of a module. It is either not yet started, or in a cycle with all levels settled.
///
/// `started` is whether a step was made, and `quiet` that the next one changes nothing if the inputs don't. `busy` is whether many
/// registers changed at the last clock edge, and `changing` whether many wires and outputs did at the last settling. `program` gives all
/// wires and outputs their levels. `marks` are the assigns and registers that may not be up to date.
/// `moving` and `firsts` are room for the registers that change at a clock edge, and what they take.
#[derive(Drop)]
pub struct Sim<'a> {
    module: &'a Module,
    started: bool,
    quiet: bool,
    busy: bool,
    changing: bool,
    levels: Levels,
    readers: Readers,
    program: Program,
    marks: Marks,
    moving: Marks,
    firsts: Vec<bool>,
}

impl<'a> Model for Sim<'a> {
    ghost use Rattle.std.specs.Prelude.{Some, None, if◌then◌else◌};
    ghost use Rattle.cycle_sim.specs.Standing.{Standing};
    ghost use Rattle.cycle_sim.specs.Code.{standing_code};
    ghost use Rattle.cycle_sim.specs.Ready.{IsReady};

    ghost Value = { Standing };

    ghost coded = { standing_code };

    ghost view = { λ s. record { circuit = s.module.now; state = if s.started then Some s.levels else None } };

    ghost invariant = { λ s. IsReady s.module.now s.started s.quiet s.levels s.readers.starts.items s.readers.lists s.readers.tapped s.program s.marks s.moving s.firsts.items };
}

impl<'a> Sim<'a> {
    /// A simulation before cycle 0. It takes all its memory here.
    pub fn new(alloc: Global, m: &'a Module) -> Result<Sim<'a>, NoMemory>
        ensures same_module { IfOk result (λ sim. sim.circuit ≡ m.now) }
        ensures before_cycle_0 { IfOk result (λ sim. sim.state ≡ None) }
    {
        few_items(m);
        let assigns = m.assigns().len();
        let regs = m.regs().len();
        Ok(Sim {
            module: m,
            started: false,
            quiet: false,
            busy: false,
            changing: false,
            levels: Levels::low(alloc, m)?,
            readers: readers_of(alloc, m)?,
            program: compile(alloc, m)?,
            marks: Marks::all(alloc, assigns + regs)?,
            moving: Marks::none(alloc, regs)?,
            firsts: all_low(alloc, regs)?,
        })
    }

    /// Goes to the next cycle, under one level for each input. The first step goes to cycle 0.
    /// It takes no memory, and time in proportion to what changes, or to the inputs if nothing does.
    pub fn step(&mut self, inputs: &[bool])
        requires { length inputs.now ≡ length self.old.circuit.inputs }
        ensures same_module { self.new.circuit ≡ self.old.circuit }
        ensures next_cycle { IsStep self.old.circuit self.old.state self.new.state inputs.now }
        ensures in_a_cycle { IsSome self.new.state }
    {
        if !self.rests(inputs) {
            self.advance(inputs);
        }
    }

    // The same, and nothing is known of what changes.
    fn advance(&mut self, inputs: &[bool])
        requires { length inputs.now ≡ length self.old.circuit.inputs }
        ensures same_module { self.new.circuit ≡ self.old.circuit }
        ensures next_cycle { IsStep self.old.circuit self.old.state self.new.state inputs.now }
        ensures in_a_cycle { IsSome self.new.state }
    {
        let m = self.module;
        if self.started {
            let changed = clock_edge(
                m,
                &self.readers,
                &mut self.levels,
                &mut self.marks,
                &mut self.moving,
                self.firsts.as_mut_slice(),
                self.busy,
            );
            self.busy = is_busy(m, changed);
        }
        set_inputs(m, &self.readers, &mut self.levels, &mut self.marks, inputs);
        self.changing = settle(
            m,
            &self.readers,
            &mut self.program,
            &mut self.levels,
            &mut self.marks,
            self.changing,
        );
        self.started = true;
        self.quiet = is_quiet(m, &self.marks);
    }

    // Whether the next cycle's state is this one's under these inputs, as far as is known.
    fn rests(&self, inputs: &[bool]) -> bool
        ensures next_cycle { result ≡ true → IsStep self.now.circuit self.now.state self.now.state inputs.now }
        ensures in_a_cycle { result ≡ true → IsSome self.now.state }
    {
        self.quiet && self.levels.has_inputs(inputs)
    }

    /// Whether the next cycle's state is this one's, if the inputs keep their levels.
    pub fn is_quiet(&self) -> bool
        ensures { result ≡ true → (s : State) → self.now.state ≡ Some s → IsNext self.now.circuit s s s.inputs }
    {
        self.quiet
    }

    /// The levels of the outputs in this cycle, in order.
    pub fn outs(&self) -> &[bool]
        requires { IsSome self.now.state }
        ensures levels { (s : State) → self.now.state ≡ Some s → result.now ≡ s.outs }
        ensures count { length result.now ≡ length self.now.circuit.outputs }
    {
        self.levels.outs()
    }

    /// The level of an output in this cycle.
    pub fn level(&self, out: u32) -> bool
        requires in_a_cycle { IsSome self.now.state }
        requires an_output { out < length self.now.circuit.outputs }
        ensures { result ≡ output_level self.now.state out }
    {
        self.levels.out(out)
    }
}

// Whether no register is marked.
fn is_quiet(m: &Module, marks: &Marks) -> bool
    ensures { result ≡ true → (r : ℕ) → r < length m.now.regs → IsUnmarked marks.now (length m.now.assigns + r) }
{
    let assigns = m.assigns().len();
    let next = marks.first(assigns);
    next >= assigns && next - assigns >= m.regs().len()
}
