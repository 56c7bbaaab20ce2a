ghost use Rattle.std.specs.Prelude.{◌≡◌, ◌≤◌, ◌++◌, length, IfOk, OnOk};
ghost use Rattle.gate_lower.specs.Tapped.{delay_registers, latch_registers};

use crate::bits::operand;
use crate::gates::{Delay, Gate};
use crate::names::numbered_name;
use circuit::{Bit, Reg};
use rl_time::NoMemory;
use std::alloc::Global;

/// The registers of the delays, each of which is a shift register.
pub fn delay_registers(alloc: Global, delays: &[Delay]) -> Result<Vec<Reg>, NoMemory>
    requires { length delays.now ≤ 65536 }
    ensures { IfOk result (λ regs. regs.items ≡ delay_registers 0 delays.now) }
{
    let mut regs = Vec::new(alloc);
    for (number, delay) in delays.iter().enumerate() {
        let name = numbered_name(alloc, b"r", number as u32)?;
        regs.push(Reg::new(name, delay.width, operand(delay.from)))?;
    }
    Ok(regs)
}

/// Adds a register for each latch, from this number on.
pub fn push_latch_registers(
    alloc: Global,
    regs: &mut Vec<Reg>,
    first: u32,
    gates: &[Gate],
) -> Result<(), NoMemory>
    requires few { length gates.now ≤ 16384 }
    requires room { first ≤ 65536 }
    ensures { OnOk result (regs.new.items ≡ regs.old.items ++ latch_registers 0 first gates.now) }
{
    let mut next = first;
    for (wire, gate) in gates.iter().enumerate() {
        if let Gate::Latch(_, _) = *gate {
            let name = numbered_name(alloc, b"r", next)?;
            regs.push(Reg::new(name, 1, Bit::Wire(wire as u32)))?;
            next += 1;
        }
    }
    Ok(())
}
