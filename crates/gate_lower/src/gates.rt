ghost use Rattle.std.specs.Prelude.{◌≡◌};
ghost use Rattle.gate_lower.specs.Netlist.{netlist};
ghost use Rattle.gate_lower.specs.Rules.{IsNetlist};

use rl_text::Name;
use std::marker::Model;

/// Where an operand comes from. `Input` and `Gate` are places in the lists of inputs and of gates, from 0;
/// `Tap(n, c)` is delay n after c cycles, from 1.
#[derive(Clone, Copy, Debug, PartialEq, Eq)]
pub enum Line {
    Low,
    Input(u32),
    Gate(u32),
    Tap(u32, u32),
}

/// A gate: the earlier of two rises, the later, or the first where it comes before the second.
#[derive(Clone, Copy, Debug, PartialEq, Eq)]
pub enum Gate {
    Or(Line, Line),
    And(Line, Line),
    Latch(Line, Line),
}

/// A chain of register bits that is fed by a line; its width is its number of cycles.
#[derive(Clone, Copy, Debug, PartialEq, Eq)]
pub struct Delay {
    pub from: Line,
    pub width: u32,
}

/// An output: its name, without a prefix, and where it comes from.
#[derive(Debug, Drop)]
pub struct OutLine {
    name: Name,
    line: Line,
}

impl Model for OutLine {
    ghost use Rattle.gate_lower.specs.Netlist.{Output};

    ghost Value = { Output };

    ghost view = { λ o. record { name = o.name; line = o.line } };
}

impl OutLine {
    /// An output of this name, without a prefix, that comes from this line.
    pub fn new(name: Name, line: Line) -> OutLine
        ensures { result ≡ record { name = name; line = line } }
    {
        OutLine { name, line }
    }

    /// The name, without a prefix.
    pub fn name(&self) -> &Name
        ensures { result.now ≡ self.now.name }
    {
        &self.name
    }

    /// Where it comes from.
    pub fn line(&self) -> Line
        ensures { result ≡ self.now.line }
    {
        self.line
    }
}

/// Gates in an order in which each is after the gates that it takes directly.
#[derive(Debug, Drop)]
pub struct Gates {
    inputs: Vec<Name>,
    outputs: Vec<OutLine>,
    gates: Vec<Gate>,
    delays: Vec<Delay>,
}

impl Model for Gates {
    ghost use Rattle.gate_lower.specs.Netlist.{Netlist, netlist};
    ghost use Rattle.gate_lower.specs.Rules.{IsNetlist};

    ghost Value = { Netlist };

    ghost view = { λ g. netlist g.inputs.items g.outputs.items g.gates.items g.delays.items };

    ghost invariant = { λ g. IsNetlist (netlist g.inputs.items g.outputs.items g.gates.items g.delays.items) };
}

impl Gates {
    /// The gates of these parts, which keep the rules of gates.
    pub fn new(
        inputs: Vec<Name>,
        outputs: Vec<OutLine>,
        gates: Vec<Gate>,
        delays: Vec<Delay>,
    ) -> Gates
        requires { IsNetlist (netlist inputs.items outputs.items gates.items delays.items) }
        ensures { result ≡ netlist inputs.items outputs.items gates.items delays.items }
    {
        Gates {
            inputs,
            outputs,
            gates,
            delays,
        }
    }

    /// The names of the inputs, in order, without a prefix.
    pub fn inputs(&self) -> &[Name]
        ensures { result.now ≡ self.now.inputs }
    {
        self.inputs.as_slice()
    }

    /// The outputs, in order.
    pub fn outputs(&self) -> &[OutLine]
        ensures { result.now ≡ self.now.outputs }
    {
        self.outputs.as_slice()
    }

    /// The gates, each after those that it takes directly.
    pub fn gates(&self) -> &[Gate]
        ensures { result.now ≡ self.now.gates }
    {
        self.gates.as_slice()
    }

    /// The delays, in the order in which taps number them.
    pub fn delays(&self) -> &[Delay]
        ensures { result.now ≡ self.now.delays }
    {
        self.delays.as_slice()
    }

    /// What is true of all gates.
    pub fn rules(&self)
        ensures { IsNetlist self.now }
    {
        let _ = &self.gates;
    }
}
