//! The text of a module.

ghost use Rattle.std.specs.Prelude.{◌≡◌, ◌++◌, OnOk, IfOk, decimal, flat_map, slice_get};
ghost use Rattle.verilog_text.specs.Text as spec;
ghost use Rattle.circuit.specs.View.{logic};

use circuit::{Assign, Bit, Module, Reg, Target};
use itoa::Buffer;
use rl_text::Name;
use rl_time::NoMemory;
use std::alloc::Global;

fn put(text: &mut Vec<u8>, piece: &[u8]) -> Result<(), NoMemory>
    ensures { OnOk result (text.new.items ≡ text.old.items ++ piece.now) }
{
    text.extend_from_slice(piece)?;
    Ok(())
}

fn put_number(text: &mut Vec<u8>, number: u32) -> Result<(), NoMemory>
    ensures { OnOk result (text.new.items ≡ text.old.items ++ decimal number) }
{
    let mut buffer = Buffer::new();
    put(text, buffer.format(number).as_bytes())
}

fn put_name(text: &mut Vec<u8>, names: &[Name], place: u32) -> Result<(), NoMemory>
    ensures { OnOk result (text.new.items ≡ text.old.items ++ spec.name_text (slice_get names.now place)) }
{
    match names.get(place as usize) {
        Some(name) => put(text, name.bytes()),
        None => Ok(()),
    }
}

// Bit `bit` of a register.
fn put_bit_of(text: &mut Vec<u8>, reg: &Reg, bit: u32) -> Result<(), NoMemory>
    ensures { OnOk result (text.new.items ≡ text.old.items ++ spec.bit_text reg.now bit) }
{
    put(text, reg.name().bytes())?;
    if reg.width() == 1 {
        return Ok(());
    }
    put(text, b"[")?;
    put_number(text, bit)?;
    put(text, b"]")
}

fn put_register_bit(text: &mut Vec<u8>, regs: &[Reg], place: u32, bit: u32) -> Result<(), NoMemory>
    ensures { let piece = spec.register_bit_text (slice_get regs.now place) bit in
        OnOk result (text.new.items ≡ text.old.items ++ piece) }
{
    match regs.get(place as usize) {
        Some(reg) => put_bit_of(text, reg, bit),
        None => Ok(()),
    }
}

#[cycle(bits)]
fn put_bit(text: &mut Vec<u8>, m: &Module, bit: &Bit) -> Result<(), NoMemory>
    ensures { OnOk result (text.new.items ≡ text.old.items ++ spec.logic_text m.now (logic bit.now)) }
{
    match bit {
        Bit::Zero => put(text, b"1'b0"),
        Bit::One => put(text, b"1'b1"),
        Bit::Input(i) => {
            put(text, b"in_")?;
            put_name(text, m.inputs(), *i)
        }
        Bit::Wire(w) => put_name(text, m.wires(), *w),
        Bit::Reg(r, k) => put_register_bit(text, m.regs(), *r, *k),
        Bit::Not(x) => {
            put(text, b"~")?;
            put_operand(text, m, x)
        }
        Bit::And(x, y) => {
            put_operand(text, m, x)?;
            put(text, b" & ")?;
            put_operand(text, m, y)
        }
        Bit::Or(x, y) => {
            put_operand(text, m, x)?;
            put(text, b" | ")?;
            put_operand(text, m, y)
        }
    }
}

#[cycle(bits)]
fn put_operand(text: &mut Vec<u8>, m: &Module, bit: &Bit) -> Result<(), NoMemory>
    ensures { OnOk result (text.new.items ≡ text.old.items ++ spec.operand_text m.now (logic bit.now)) }
{
    match bit {
        Bit::And(_, _) | Bit::Or(_, _) => {
            put(text, b"(")?;
            put_bit(text, m, bit)?;
            put(text, b")")
        }
        _ => put_bit(text, m, bit),
    }
}

fn put_target(text: &mut Vec<u8>, m: &Module, target: Target) -> Result<(), NoMemory>
    ensures { OnOk result (text.new.items ≡ text.old.items ++ spec.target_text m.now target) }
{
    match target {
        Target::Wire(w) => put_name(text, m.wires(), w),
        Target::Out(o) => {
            put(text, b"out_")?;
            put_name(text, m.outputs(), o)
        }
    }
}

// The names, each between these two pieces of text.
fn put_each(text: &mut Vec<u8>, before: &[u8], names: &[Name], after: &[u8]) -> Result<(), NoMemory>
    ensures { let lines = flat_map (spec.around before.now after.now) names.now in
        OnOk result (text.new.items ≡ text.old.items ++ lines) }
{
    for name in names {
        put(text, before)?;
        put(text, name.bytes())?;
        put(text, after)?;
    }
    Ok(())
}

#[tactic(auto, unfolding(crate::specs::Text::header_start))]
fn put_header_start(text: &mut Vec<u8>) -> Result<(), NoMemory>
    ensures { OnOk result (text.new.items ≡ text.old.items ++ spec.header_start) }
{
    put(text, b"module race(clk, rst")
}

#[tactic(auto, unfolding(crate::specs::Text::input_ports))]
fn put_input_ports(text: &mut Vec<u8>, m: &Module) -> Result<(), NoMemory>
    ensures { OnOk result (text.new.items ≡ text.old.items ++ spec.input_ports m.now) }
{
    put_each(text, b", in_", m.inputs(), b"")
}

#[tactic(auto, unfolding(crate::specs::Text::output_ports))]
fn put_output_ports(text: &mut Vec<u8>, m: &Module) -> Result<(), NoMemory>
    ensures { OnOk result (text.new.items ≡ text.old.items ++ spec.output_ports m.now) }
{
    put_each(text, b", out_", m.outputs(), b"")
}

fn put_header(text: &mut Vec<u8>, m: &Module) -> Result<(), NoMemory>
    ensures { OnOk result (text.new.items ≡ text.old.items ++ spec.header_text m.now) }
{
    put_header_start(text)?;
    put_input_ports(text, m)?;
    put_output_ports(text, m)?;
    put(text, b");\n")
}

#[tactic(auto, unfolding(crate::specs::Text::clock_lines))]
fn put_clock_lines(text: &mut Vec<u8>) -> Result<(), NoMemory>
    ensures { OnOk result (text.new.items ≡ text.old.items ++ spec.clock_lines) }
{
    put(text, b"  input clk;\n  input rst;\n")
}

#[tactic(auto, unfolding(crate::specs::Text::input_lines))]
fn put_input_lines(text: &mut Vec<u8>, m: &Module) -> Result<(), NoMemory>
    ensures { OnOk result (text.new.items ≡ text.old.items ++ spec.input_lines m.now) }
{
    put_each(text, b"  input in_", m.inputs(), b";\n")
}

#[tactic(auto, unfolding(crate::specs::Text::output_lines))]
fn put_output_lines(text: &mut Vec<u8>, m: &Module) -> Result<(), NoMemory>
    ensures { OnOk result (text.new.items ≡ text.old.items ++ spec.output_lines m.now) }
{
    put_each(text, b"  output out_", m.outputs(), b";\n")
}

#[tactic(auto, unfolding(crate::specs::Text::wire_lines))]
fn put_wire_lines(text: &mut Vec<u8>, m: &Module) -> Result<(), NoMemory>
    ensures { OnOk result (text.new.items ≡ text.old.items ++ spec.wire_lines m.now) }
{
    put_each(text, b"  wire ", m.wires(), b";\n")
}

fn put_register_line(text: &mut Vec<u8>, reg: &Reg) -> Result<(), NoMemory>
    ensures { OnOk result (text.new.items ≡ text.old.items ++ spec.register_line reg.now) }
{
    if reg.width() == 1 {
        put(text, b"  reg ")?;
    } else {
        put(text, b"  reg [")?;
        put_number(text, reg.width().saturating_sub(1))?;
        put(text, b":0] ")?;
    }
    put(text, reg.name().bytes())?;
    put(text, b";\n")
}

fn put_register_lines(text: &mut Vec<u8>, regs: &[Reg]) -> Result<(), NoMemory>
    ensures { OnOk result (text.new.items ≡ text.old.items ++ flat_map spec.register_line regs.now) }
{
    for reg in regs {
        put_register_line(text, reg)?;
    }
    Ok(())
}

fn put_declarations(text: &mut Vec<u8>, m: &Module) -> Result<(), NoMemory>
    ensures { OnOk result (text.new.items ≡ text.old.items ++ spec.declarations_text m.now) }
{
    put_clock_lines(text)?;
    put_input_lines(text, m)?;
    put_output_lines(text, m)?;
    put_wire_lines(text, m)?;
    put_register_lines(text, m.regs())
}

fn put_assign(text: &mut Vec<u8>, m: &Module, assign: &Assign) -> Result<(), NoMemory>
    ensures { OnOk result (text.new.items ≡ text.old.items ++ spec.assign_line m.now assign.now) }
{
    put(text, b"  assign ")?;
    put_target(text, m, assign.target())?;
    put(text, b" = ")?;
    put_bit(text, m, assign.bit())?;
    put(text, b";\n")
}

fn put_assigns(text: &mut Vec<u8>, m: &Module) -> Result<(), NoMemory>
    ensures { let lines = flat_map (spec.assign_line m.now) m.now.assigns in
        OnOk result (text.new.items ≡ text.old.items ++ lines) }
{
    for assign in m.assigns() {
        put_assign(text, m, assign)?;
    }
    Ok(())
}

fn put_next(text: &mut Vec<u8>, m: &Module, reg: &Reg) -> Result<(), NoMemory>
    ensures { OnOk result (text.new.items ≡ text.old.items ++ spec.next_text m.now reg.now) }
{
    if reg.width() == 1 {
        return put_bit(text, m, reg.next());
    }
    put(text, b"{")?;
    put(text, reg.name().bytes())?;
    put(text, b"[")?;
    put_number(text, reg.width().saturating_sub(2))?;
    put(text, b":0], ")?;
    put_bit(text, m, reg.next())?;
    put(text, b"}")
}

#[tactic(auto, unfolding(crate::specs::Text::always_start))]
fn put_always_start(text: &mut Vec<u8>) -> Result<(), NoMemory>
    ensures { OnOk result (text.new.items ≡ text.old.items ++ spec.always_start) }
{
    put(text, b"  always @(posedge clk) if (rst) ")
}

fn put_reset(text: &mut Vec<u8>, reg: &Reg) -> Result<(), NoMemory>
    ensures { OnOk result (text.new.items ≡ text.old.items ++ spec.reset_text reg.now) }
{
    put_always_start(text)?;
    put(text, reg.name().bytes())?;
    put(text, b" <= ")?;
    put_number(text, reg.width())?;
    put(text, b"'b0; else ")
}

fn put_update(text: &mut Vec<u8>, m: &Module, reg: &Reg) -> Result<(), NoMemory>
    ensures { OnOk result (text.new.items ≡ text.old.items ++ spec.update_text m.now reg.now) }
{
    put(text, reg.name().bytes())?;
    put(text, b" <= ")?;
    put_next(text, m, reg)?;
    put(text, b";\n")
}

fn put_always(text: &mut Vec<u8>, m: &Module, reg: &Reg) -> Result<(), NoMemory>
    ensures { OnOk result (text.new.items ≡ text.old.items ++ spec.always_line m.now reg.now) }
{
    put_reset(text, reg)?;
    put_update(text, m, reg)
}

fn put_always_lines(text: &mut Vec<u8>, m: &Module) -> Result<(), NoMemory>
    ensures { let lines = flat_map (spec.always_line m.now) m.now.regs in
        OnOk result (text.new.items ≡ text.old.items ++ lines) }
{
    for reg in m.regs() {
        put_always(text, m, reg)?;
    }
    Ok(())
}

fn put_statements(text: &mut Vec<u8>, m: &Module) -> Result<(), NoMemory>
    ensures { OnOk result (text.new.items ≡ text.old.items ++ spec.statements_text m.now) }
{
    put_assigns(text, m)?;
    put_always_lines(text, m)?;
    put(text, b"endmodule\n")
}

/// The text of a module: its header, its declarations, its assigns in their order and its registers.
pub fn print_module(alloc: Global, m: &Module) -> Result<Vec<u8>, NoMemory>
    ensures { IfOk result (λ text. text.items ≡ spec.module_text m.now) }
{
    let mut text = Vec::new(alloc);
    put_header(&mut text, m)?;
    put_declarations(&mut text, m)?;
    put_statements(&mut text, m)?;
    Ok(text)
}
