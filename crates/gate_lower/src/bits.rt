ghost use Rattle.std.specs.Prelude.{◌≡◌, ◌+◌, ◌≤◌, ◌++◌, length, IfOk, OnOk};
ghost use Rattle.circuit.specs.Circuit.{And, Or};
ghost use Rattle.circuit.specs.View.{logic};
ghost use Rattle.gate_lower.specs.Rules.{latch_bits};
ghost use Rattle.gate_lower.specs.Tapped.{operand, gate_logic, gate_assigns, output_assigns};

use crate::gates::{Gate, Line, OutLine};
use circuit::{Assign, Bit, Target};
use rl_time::NoMemory;
use std::alloc::Global;

/// The bit that a line is.
pub fn operand(line: Line) -> Bit
    ensures { logic result ≡ operand line }
{
    match line {
        Line::Low => Bit::Zero,
        Line::Input(i) => Bit::Input(i),
        Line::Gate(k) => Bit::Wire(k),
        Line::Tap(n, c) => Bit::Reg(n, c.saturating_sub(1)),
    }
}

fn or(alloc: Global, p: Bit, q: Bit) -> Result<Bit, NoMemory>
    ensures { IfOk result (λ bit. logic bit ≡ Or (logic p) (logic q)) }
{
    Ok(Bit::Or(Box::new(alloc, p)?, Box::new(alloc, q)?))
}

fn and(alloc: Global, p: Bit, q: Bit) -> Result<Bit, NoMemory>
    ensures { IfOk result (λ bit. logic bit ≡ And (logic p) (logic q)) }
{
    Ok(Bit::And(Box::new(alloc, p)?, Box::new(alloc, q)?))
}

/// The expression of a gate; a latch holds its level in this register.
fn gate_bit(alloc: Global, register: u32, gate: Gate) -> Result<Bit, NoMemory>
    ensures { IfOk result (λ bit. logic bit ≡ gate_logic register gate) }
{
    match gate {
        Gate::Or(p, q) => or(alloc, operand(p), operand(q)),
        Gate::And(p, q) => and(alloc, operand(p), operand(q)),
        Gate::Latch(p, q) => {
            let not_yet = Bit::Not(Box::new(alloc, operand(q))?);
            let rises = and(alloc, operand(p), not_yet)?;
            or(alloc, Bit::Reg(register, 0), rises)
        }
    }
}

fn register_after(register: u32, gate: Gate) -> u32
    requires { register ≤ 100000 }
    ensures { result ≡ register + latch_bits gate }
{
    match gate {
        Gate::Latch(_, _) => register + 1,
        _ => register,
    }
}

/// The assigns of the gates, whose latches hold their levels from this register on.
pub fn gate_assigns(alloc: Global, first: u32, gates: &[Gate]) -> Result<Vec<Assign>, NoMemory>
    requires few { length gates.now ≤ 16384 }
    requires room { first ≤ 65536 }
    ensures { IfOk result (λ assigns. assigns.items ≡ gate_assigns 0 first gates.now) }
{
    let mut assigns = Vec::new(alloc);
    let mut register = first;
    for (wire, gate) in gates.iter().enumerate() {
        let bit = gate_bit(alloc, register, *gate)?;
        assigns.push(Assign::new(Target::Wire(wire as u32), bit))?;
        register = register_after(register, *gate);
    }
    Ok(assigns)
}

/// Adds the assigns of the outputs.
pub fn push_output_assigns(assigns: &mut Vec<Assign>, outputs: &[OutLine]) -> Result<(), NoMemory>
    requires { length outputs.now ≤ 64 }
    ensures { OnOk result (assigns.new.items ≡ assigns.old.items ++ output_assigns 0 outputs.now) }
{
    for (place, output) in outputs.iter().enumerate() {
        let bit = operand(output.line());
        assigns.push(Assign::new(Target::Out(place as u32), bit))?;
    }
    Ok(())
}
