ghost use Rattle.std.specs.Prelude.{◌≡◌, ◌≤◌, length, IfOk};
ghost use Rattle.circuit.specs.Circuit as circuit;
ghost use Rattle.circuit.specs.Depth.{IsShallow};
ghost use Rattle.circuit.specs.Repeats.{HasNoRepeatedGate};
ghost use Rattle.verilog_text.specs.Text.{module_text};
ghost use Rattle.gate_lower.specs.Rules as rules;
ghost use Rattle.gate_lower.specs.Rules.{IsNetlist, output_names};
ghost use Rattle.gate_lower.specs.Timing.{TimeIsLevel};
ghost use Rattle.gate_lower.specs.Tapped.{tapped_module};

use crate::bits::{gate_assigns, push_output_assigns};
use crate::gates::Gates;
use crate::names::{copy_names, output_names, wire_names};
use crate::registers::{delay_registers, push_latch_registers};
use circuit::validity_laws::numbered_names_are_valid;
use circuit::{Assign, Module, Reg};
use rl_time::NoMemory;
use std::alloc::Global;

/// The number of the first register of a latch: the registers of the delays are before it.
fn first_latch(g: &Gates) -> u32
    requires { IsNetlist g.now }
    ensures number { result ≡ length g.now.delays }
    ensures few { result ≤ 65536 }
{
    g.delays().len() as u32
}

/// The registers of the module of gates.
fn registers(alloc: Global, g: &Gates) -> Result<Vec<Reg>, NoMemory>
    requires { IsNetlist g.now }
    ensures { IfOk result (λ regs. regs.items ≡ (tapped_module g.now).regs) }
{
    let first = first_latch(g);
    let mut regs = delay_registers(alloc, g.delays())?;
    push_latch_registers(alloc, &mut regs, first, g.gates())?;
    Ok(regs)
}

/// The assigns of the module of gates.
fn assigns(alloc: Global, g: &Gates) -> Result<Vec<Assign>, NoMemory>
    requires { IsNetlist g.now }
    ensures { IfOk result (λ assigns. assigns.items ≡ (tapped_module g.now).assigns) }
{
    let first = first_latch(g);
    let mut assigns = gate_assigns(alloc, first, g.gates())?;
    push_output_assigns(&mut assigns, g.outputs())?;
    Ok(assigns)
}

fn build(alloc: Global, g: &Gates) -> Result<Module, NoMemory>
    requires { IsNetlist g.now }
    ensures { IfOk result (λ m. m ≡ tapped_module g.now) }
{
    numbered_names_are_valid();
    let regs = registers(alloc, g)?;
    let assigns = assigns(alloc, g)?;
    let inputs = copy_names(alloc, g.inputs())?;
    let outputs = output_names(alloc, g.outputs())?;
    let wires = wire_names(alloc, g.gates().len() as u32)?;
    Ok(Module::new(inputs, outputs, wires, regs, assigns))
}

/// The module of gates, with a shift register for each delay: wire `wK` is gate K, and every wire and output is high
/// exactly from its time on. No two wires are the same gate of the same operands, and no two shift registers take the
/// same operand. In the module's text at most 64 of `~` and `(` are nested, and it has at most 16,777,216 bytes.
pub fn emit(alloc: Global, g: &Gates) -> Result<Module, NoMemory>
    ensures module_is { IfOk result (λ m. m ≡ tapped_module g.now) }
    ensures ports { IfOk result (λ m. (m.inputs ≡ g.now.inputs) × (m.outputs ≡ output_names g.now.outputs)) }
    ensures levels { IfOk result (TimeIsLevel g.now) }
    ensures no_repeated_gate { IfOk result HasNoRepeatedGate }
    ensures shallow { IfOk result IsShallow }
    ensures wires { IfOk result (λ m. length m.wires ≡ length g.now.gates) }
    ensures bits { IfOk result (λ m. circuit.register_bits m ≡ rules.register_bits g.now) }
    ensures size { IfOk result (λ m. length (module_text m) ≤ 16777216) }
{
    g.rules();
    build(alloc, g)
}
