ghost use Rattle.std.specs.Prelude.{◌≡◌};
ghost use Rattle.circuit.specs.Circuit.{circuit};
ghost use Rattle.circuit.specs.Valid.{IsValid};
ghost use Rattle.circuit.specs.View.{logic};

use crate::bit::{Bit, Target};
use rl_text::Name;
use std::marker::Model;

/// A wire or an output, and the expression whose level it has.
#[derive(Debug, Drop)]
pub struct Assign {
    target: Target,
    bit: Bit,
}

impl Model for Assign {
    ghost use Rattle.circuit.specs.Circuit.{Assignment};
    ghost use Rattle.circuit.specs.Code.{assignment_code};

    ghost Value = { Assignment };

    ghost coded = { assignment_code };

    ghost use Rattle.circuit.specs.View.{logic};

    ghost view = { λ a. record { target = a.target; bit = logic a.bit } };
}

impl Assign {
    /// An assign: the target has the level of the expression.
    pub fn new(target: Target, bit: Bit) -> Assign
        ensures { result ≡ record { target = target; bit = logic bit } }
    {
        Assign { target, bit }
    }

    /// The wire or output that is assigned.
    pub fn target(&self) -> Target
        ensures { result ≡ self.now.target }
    {
        self.target
    }

    /// The expression whose level it has.
    pub fn bit(&self) -> &Bit
        ensures { logic result.now ≡ self.now.bit }
    {
        &self.bit
    }
}

/// A shift register of `width` bits: at each clock edge bit 0 takes the level of `next`, and each other bit
/// the level of the bit before it.
#[derive(Debug, Drop)]
pub struct Reg {
    name: Name,
    width: u32,
    next: Bit,
}

impl Model for Reg {
    ghost use Rattle.circuit.specs.Circuit.{Register};
    ghost use Rattle.circuit.specs.Code.{register_code};

    ghost Value = { Register };

    ghost coded = { register_code };

    ghost use Rattle.circuit.specs.View.{logic};

    ghost view = { λ r. record { name = r.name; width = r.width; next = logic r.next } };
}

impl Reg {
    /// A register of this name and of `width` bits, of which bit 0 takes `next` at a clock edge.
    pub fn new(name: Name, width: u32, next: Bit) -> Reg
        ensures { result ≡ record { name = name; width = width; next = logic next } }
    {
        Reg { name, width, next }
    }

    /// The name.
    pub fn name(&self) -> &Name
        ensures { result.now ≡ self.now.name }
    {
        &self.name
    }

    /// How many bits it has.
    pub fn width(&self) -> u32
        ensures { result ≡ self.now.width }
    {
        self.width
    }

    /// What bit 0 takes at a clock edge.
    pub fn next(&self) -> &Bit
        ensures { logic result.now ≡ self.now.next }
    {
        &self.next
    }

    /// From now on bit 0 takes the level of this expression.
    pub fn set_next(&mut self, next: Bit)
        ensures { self.new ≡ record self.old { next = logic next } }
    {
        self.next = next;
    }
}

/// A valid module, seen as a `Circuit`. Inputs and outputs are named without the prefixes `in_` and `out_`.
#[derive(Debug, Drop)]
pub struct Module {
    inputs: Vec<Name>,
    outputs: Vec<Name>,
    wires: Vec<Name>,
    regs: Vec<Reg>,
    assigns: Vec<Assign>,
}

impl Model for Module {
    ghost use Rattle.circuit.specs.Circuit.{Circuit, circuit};
    ghost use Rattle.circuit.specs.Code.{circuit_code};
    ghost use Rattle.circuit.specs.Valid.{IsValid};

    ghost Value = { Circuit };

    ghost coded = { circuit_code };

    ghost view = { λ m. circuit m.inputs.items m.outputs.items m.wires.items m.regs.items m.assigns.items };

    ghost invariant = { λ m. IsValid (circuit m.inputs.items m.outputs.items m.wires.items m.regs.items m.assigns.items) };
}

impl Module {
    /// The module of these parts, which keep the rules of a valid module.
    pub fn new(
        inputs: Vec<Name>,
        outputs: Vec<Name>,
        wires: Vec<Name>,
        regs: Vec<Reg>,
        assigns: Vec<Assign>,
    ) -> Module
        requires { IsValid (circuit inputs.items outputs.items wires.items regs.items assigns.items) }
        ensures { result ≡ circuit inputs.items outputs.items wires.items regs.items assigns.items }
    {
        Module {
            inputs,
            outputs,
            wires,
            regs,
            assigns,
        }
    }

    /// The names of the inputs, in order, without `in_`.
    pub fn inputs(&self) -> &[Name]
        ensures { result.now ≡ self.now.inputs }
    {
        self.inputs.as_slice()
    }

    /// The names of the outputs, in order, without `out_`.
    pub fn outputs(&self) -> &[Name]
        ensures { result.now ≡ self.now.outputs }
    {
        self.outputs.as_slice()
    }

    /// The names of the wires, in order.
    pub fn wires(&self) -> &[Name]
        ensures { result.now ≡ self.now.wires }
    {
        self.wires.as_slice()
    }

    /// The registers, in order.
    pub fn regs(&self) -> &[Reg]
        ensures { result.now ≡ self.now.regs }
    {
        self.regs.as_slice()
    }

    /// The assigns, in order: each names only wires of earlier ones.
    pub fn assigns(&self) -> &[Assign]
        ensures { result.now ≡ self.now.assigns }
    {
        self.assigns.as_slice()
    }

    /// What is true of every module.
    pub fn rules(&self)
        ensures { IsValid self.now }
    {
        let _ = &self.inputs;
    }
}
