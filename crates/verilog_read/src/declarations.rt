//! The header, and declarations of ports, wires and registers.
ghost use Rattle.std.specs.Prelude.{◌≡◌, ◌≤◌, true, false, length, map, OnOk};
ghost use Rattle.verilog_text.specs.Grammar as g;
ghost use Rattle.verilog_text.specs.Judging.{nothing_yet, is_clock_or_reset};
ghost use Rattle.verilog_syntax.specs.View.{range};
ghost use Rattle.verilog_read.specs.Known.{capped_width, narrow};
ghost use Rattle.verilog_read.specs.Draft.{IsDraft, IsOfSome, Adds, Judges, is_misnamed_by, is_misplaced_by, input_misnamed_by, output_misnamed_by, own_misnamed_by};

use crate::draft::{Draft, StepError};
use crate::expressions::number;
use crate::names::{
    are_few, are_ports, drop_first, is_among, is_clock_or_reset, is_input_port, is_next,
    is_output_port, is_own_name, is_race, without_front,
};
use crate::scope::Meaning;
use rl_text::Name;
use rl_time::NoMemory;
use std::alloc::Global;
use verilog_text::{Bit, Reg, Rule};

/// Judges the header: the name of the module and the list of its ports, which are then to be declared.
pub fn read_header<'a>(
    draft: &mut Draft<'a>,
    name: &[u8],
    ports: Vec<&'a [u8]>,
) -> Result<(), StepError>
    requires { IsDraft draft.old nothing_yet }
    ensures { Judges draft.old (g.Header name.now (map (λ p. p.now) ports.entry.items)) draft.new result }
{
    if !is_race(name) {
        return Err(StepError::Broken(Rule::Name));
    }
    if !are_ports(&ports) {
        return Err(StepError::Broken(Rule::Name));
    }
    if !are_few(&ports) {
        return Err(StepError::Broken(Rule::Limit));
    }
    draft.to_declare = ports;
    Ok(())
}

fn is_misnamed(draft: &Draft<'_>, name: &[u8]) -> bool
    ensures { result ≡ is_misnamed_by draft.now name.now }
{
    name.len() > 40 || draft.scope.get(name).is_some()
}

fn is_misplaced(draft: &Draft<'_>, name: &[u8]) -> bool
    ensures { result ≡ is_misplaced_by draft.now name.now }
{
    !is_next(name, &draft.to_declare) || draft.wires.len() > 0 || draft.regs.len() > 0
}

fn input_misnamed(draft: &Draft<'_>, name: &[u8]) -> bool
    ensures { result ≡ input_misnamed_by draft.now name.now }
{
    is_misnamed(draft, name)
        || is_misplaced(draft, name)
        || !(is_clock_or_reset(name) || is_input_port(name))
}

fn output_misnamed(draft: &Draft<'_>, name: &[u8]) -> bool
    ensures { result ≡ output_misnamed_by draft.now name.now }
{
    is_misnamed(draft, name) || is_misplaced(draft, name) || !is_output_port(name)
}

fn own_misnamed(draft: &Draft<'_>, name: &[u8]) -> bool
    ensures { result ≡ own_misnamed_by draft.now name.now }
{
    is_misnamed(draft, name) || !is_own_name(name) || is_among(name, &draft.to_declare)
}

fn push_clock<'a>(draft: &mut Draft<'a>, name: &'a [u8]) -> Result<(), NoMemory>
    requires { is_clock_or_reset name.now ≡ true }
    ensures { OnOk result (Adds draft.old (g.Input name.now) draft.new) }
{
    draft.scope.add(name, Meaning::ClockOrReset)?;
    drop_first(&mut draft.to_declare);
    Ok(())
}

fn push_input<'a>(alloc: Global, draft: &mut Draft<'a>, name: &'a [u8]) -> Result<(), NoMemory>
    requires few { length draft.old.inputs.items ≤ 64 }
    requires port { is_clock_or_reset name.now ≡ false }
    ensures { OnOk result (Adds draft.old (g.Input name.now) draft.new) }
{
    let place = draft.inputs.len() as u32;
    let input = Name::new(alloc, without_front(name, 3))?;
    draft.scope.add(name, Meaning::Input(place))?;
    draft.inputs.push(input)?;
    drop_first(&mut draft.to_declare);
    Ok(())
}

/// Judges the declaration of an input, the clock or the reset, and keeps it where it breaks no rule.
pub fn read_input<'a>(alloc: Global, draft: &mut Draft<'a>, name: &'a [u8]) -> Result<(), StepError>
    requires { IsOfSome draft.old }
    ensures { Judges draft.old (g.Input name.now) draft.new result }
{
    if input_misnamed(draft, name) {
        return Err(StepError::Broken(Rule::Name));
    }
    if is_clock_or_reset(name) {
        push_clock(draft, name)?;
    } else {
        push_input(alloc, draft, name)?;
    }
    Ok(())
}

fn push_output<'a>(alloc: Global, draft: &mut Draft<'a>, name: &'a [u8]) -> Result<(), NoMemory>
    requires { length draft.old.outputs.items ≤ 64 }
    ensures { OnOk result (Adds draft.old (g.Output name.now) draft.new) }
{
    let place = draft.outputs.len() as u32;
    let output = Name::new(alloc, without_front(name, 4))?;
    draft.scope.add(name, Meaning::Output(place))?;
    draft.outputs.push(output)?;
    draft.given_outputs.push(false)?;
    drop_first(&mut draft.to_declare);
    Ok(())
}

/// Judges the declaration of an output, and keeps it where it breaks no rule.
pub fn read_output<'a>(
    alloc: Global,
    draft: &mut Draft<'a>,
    name: &'a [u8],
) -> Result<(), StepError>
    requires { IsOfSome draft.old }
    ensures { Judges draft.old (g.Output name.now) draft.new result }
{
    if output_misnamed(draft, name) {
        return Err(StepError::Broken(Rule::Name));
    }
    push_output(alloc, draft, name)?;
    Ok(())
}

fn push_wire<'a>(alloc: Global, draft: &mut Draft<'a>, name: &'a [u8]) -> Result<(), NoMemory>
    requires { length draft.old.wires.items ≤ 65536 }
    ensures { OnOk result (Adds draft.old (g.Wire name.now) draft.new) }
{
    let place = draft.wires.len() as u32;
    let wire = Name::new(alloc, name)?;
    draft.scope.add(name, Meaning::Wire(place))?;
    draft.wires.push(wire)?;
    draft.given_wires.push(false)?;
    Ok(())
}

/// Judges the declaration of a wire, and keeps it where it breaks no rule.
pub fn read_wire<'a>(alloc: Global, draft: &mut Draft<'a>, name: &'a [u8]) -> Result<(), StepError>
    requires { IsOfSome draft.old }
    ensures { Judges draft.old (g.Wire name.now) draft.new result }
{
    if own_misnamed(draft, name) {
        return Err(StepError::Broken(Rule::Name));
    }
    if draft.wires.len() + 1 > 65536 {
        return Err(StepError::Broken(Rule::Limit));
    }
    push_wire(alloc, draft, name)?;
    Ok(())
}

/// Whether a range has only one bit.
fn is_narrow(last: Option<&[u8]>) -> bool
    ensures { result ≡ narrow (range last.entry) }
{
    match last {
        Some(digits) => number(digits) == 0,
        None => false,
    }
}

/// The last bit of a range, as far as it matters, and one more; without a range 1.
fn width_of(last: Option<&[u8]>) -> u32
    ensures { result ≡ capped_width (range last.entry) }
{
    match last {
        Some(digits) => number(digits) + 1,
        None => 1,
    }
}

fn push_reg<'a>(
    alloc: Global,
    draft: &mut Draft<'a>,
    last: Option<&[u8]>,
    name: &'a [u8],
) -> Result<(), NoMemory>
    requires regs { length draft.old.regs.items ≤ 65536 }
    requires bits { draft.old.bits ≤ 65536 }
    ensures { OnOk result (Adds draft.old (g.Reg (range last.entry) name.now) draft.new) }
{
    let width = width_of(last);
    let place = draft.regs.len() as u32;
    let reg = Reg::new(Name::new(alloc, name)?, width, Bit::Zero);
    draft.scope.add(name, Meaning::Reg(place))?;
    draft.regs.push(reg)?;
    draft.updated.push(false)?;
    draft.bits += width;
    Ok(())
}

/// Judges the declaration of a register, with the last bit of its range or none, and keeps it where it breaks no rule.
pub fn read_reg<'a>(
    alloc: Global,
    draft: &mut Draft<'a>,
    last: Option<&[u8]>,
    name: &'a [u8],
) -> Result<(), StepError>
    requires { IsOfSome draft.old }
    ensures { Judges draft.old (g.Reg (range last.entry) name.now) draft.new result }
{
    if own_misnamed(draft, name) {
        return Err(StepError::Broken(Rule::Name));
    }
    if is_narrow(last) {
        return Err(StepError::Broken(Rule::Width));
    }
    if draft.bits + width_of(last) > 65536 {
        return Err(StepError::Broken(Rule::Limit));
    }
    push_reg(alloc, draft, last, name)?;
    Ok(())
}
