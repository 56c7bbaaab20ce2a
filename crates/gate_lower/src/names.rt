ghost use Rattle.std.specs.Prelude.{◌≡◌, ◌≤◌, codes, IfOk};
ghost use Rattle.circuit.specs.Names.{numbered_name, numbered};
ghost use Rattle.gate_lower.specs.Rules.{output_names};

use crate::gates::OutLine;
use itoa::Buffer;
use rl_text::Name;
use rl_time::NoMemory;
use std::alloc::Global;

/// A prefix and a number in decimal.
pub fn numbered_name(alloc: Global, prefix: &[u8], number: u32) -> Result<Name, NoMemory>
    ensures { IfOk result (λ name. name ≡ numbered_name prefix.now number) }
{
    let mut buffer = Buffer::new();
    let mut bytes = Vec::from_slice(alloc, prefix)?;
    bytes.extend_from_slice(buffer.format(number).as_bytes())?;
    Name::new(alloc, &bytes)
}

/// The names of so many wires.
pub fn wire_names(alloc: Global, count: u32) -> Result<Vec<Name>, NoMemory>
    ensures { IfOk result (λ names. names.items ≡ numbered (codes "w") count) }
{
    let mut names = Vec::new(alloc);
    for number in 0..count {
        names.push(numbered_name(alloc, b"w", number)?)?;
    }
    Ok(names)
}

/// A copy of each name, in order.
pub fn copy_names(alloc: Global, names: &[Name]) -> Result<Vec<Name>, NoMemory>
    ensures { IfOk result (λ copies. copies.items ≡ names.now) }
{
    let mut copies = Vec::new(alloc);
    for name in names {
        copies.push(Name::new(alloc, name.bytes())?)?;
    }
    Ok(copies)
}

/// A copy of the name of each output, in order.
pub fn output_names(alloc: Global, outputs: &[OutLine]) -> Result<Vec<Name>, NoMemory>
    ensures { IfOk result (λ names. names.items ≡ output_names outputs.now) }
{
    let mut names = Vec::new(alloc);
    for output in outputs {
        names.push(Name::new(alloc, output.name().bytes())?)?;
    }
    Ok(names)
}
