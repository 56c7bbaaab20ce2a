ghost use Rattle.std.specs.Prelude.{◌≡◌, ◌≤◌, ◌<◌, ◌+◌, ◌*◌, ◌/◌, ◌%◌, ◌^◌, ℕ, Bool, List, not, length, OnOk, IfOk};
ghost use Rattle.circuit.specs.Circuit as spec;
ghost use Rattle.circuit.specs.Circuit.{Logic, Assignment};
ghost use Rattle.circuit.specs.View.{logic};
ghost use Rattle.cycle_sim.specs.Operations.{Plan, IsPlaced, Fits, IsWithin, IsPlan, Computes, Activates, literal_level, formula_level};

use crate::operation::Formula;
use crate::program::Program;
use circuit::{Assign, Bit, Module, Target};
use rl_time::NoMemory;
use std::alloc::Global;

// The literals of the low place.
const LOW: u32 = 0;

const HIGH: u32 = 1;

// The literal of the other level.
fn other(literal: u32) -> u32
    ensures place { result / 2 ≡ literal / 2 }
    ensures level { (values : List Bool) → literal_level values result ≡ not (literal_level values literal) }
{
    if literal % 2 == 0 {
        literal + 1
    } else {
        literal - 1
    }
}

// The formula of one literal.
fn alone(literal: u32) -> Formula
    ensures { result ≡ record { first = literal; second = 0; third = 0 } }
{
    Formula {
        first: literal,
        second: LOW,
        third: LOW,
    }
}

// The same as a product, whose first literal is low.
fn only_factor(literal: u32) -> Formula
    ensures { result ≡ record { first = 0; second = 1; third = literal } }
{
    Formula {
        first: LOW,
        second: HIGH,
        third: literal,
    }
}

// A literal with the level of a formula, by an operation at a new place.
fn operated(program: &mut Program, formula: Formula) -> Result<u32, NoMemory>
    requires { IsWithin program.old.room formula }
    ensures within { IfOk result (λ n. n / 2 < program.new.room) }
    ensures places { OnOk result (program.new.places ≡ program.old.places) }
    ensures computes { IfOk result (λ n. (p : Plan) (e : Logic) → Computes p program.old (λ values. formula_level values formula) e →
        Computes p program.new (λ values. literal_level values n) e) }
{
    program.rules();
    let to = program.place()?;
    program.operate(to, formula)?;
    program.rules();
    Ok(2 * to)
}

// A literal with the level of a bit of a register: of the last tap, where that is of this bit, since an expression often names a bit
// twice, and else of a new one.
fn tapped(program: &mut Program, reg: u32, bit: u32) -> Result<u32, NoMemory>
    ensures within { IfOk result (λ n. n / 2 < program.new.room) }
    ensures places { OnOk result (program.new.places ≡ program.old.places) }
    ensures computes { IfOk result (λ n. Computes program.old program.new (λ values. literal_level values n) (spec.Reg reg bit)) }
{
    program.rules();
    if let Some(to) = program.last_tap(reg, bit) {
        return Ok(2 * to);
    }
    let to = program.tap(reg, bit)?;
    program.rules();
    Ok(2 * to)
}

// A literal with the level of an expression. Adds the operations and taps of its parts. It answers a number and not a formula, so that it
// needs little of the stack for each part that it goes down to.
fn literal_of(program: &mut Program, bit: &Bit) -> Result<u32, NoMemory>
    requires { Fits program.old.places (logic bit.now) }
    ensures within { IfOk result (λ n. n / 2 < program.new.room) }
    ensures places { OnOk result (program.new.places ≡ program.old.places) }
    ensures computes { IfOk result (λ n. Computes program.old program.new (λ values. literal_level values n) (logic bit.now)) }
{
    program.rules();
    match bit {
        Bit::Zero => Ok(LOW),
        Bit::One => Ok(HIGH),
        Bit::Input(input) => Ok(2 * (1 + *input)),
        Bit::Wire(wire) => Ok(2 * program.target(Target::Wire(*wire))),
        Bit::Reg(reg, place) => tapped(program, *reg, *place),
        Bit::Not(x) => {
            let literal = literal_of(program, x)?;
            Ok(other(literal))
        }
        Bit::And(x, y) => {
            let second = literal_of(program, x)?;
            let third = literal_of(program, y)?;
            operated(
                program,
                Formula {
                    first: LOW,
                    second,
                    third,
                },
            )
        }
        Bit::Or(x, y) => {
            let first = literal_of(program, x)?;
            let third = literal_of(program, y)?;
            operated(
                program,
                Formula {
                    first,
                    second: HIGH,
                    third,
                },
            )
        }
    }
}

// The formula of an expression, whose first literal is low: a product of two literals, where it is a product.
fn product_of(program: &mut Program, bit: &Bit) -> Result<Formula, NoMemory>
    requires { Fits program.old.places (logic bit.now) }
    ensures low { IfOk result (λ f. f.first ≡ 0) }
    ensures within { IfOk result (λ f. IsWithin program.new.room f) }
    ensures places { OnOk result (program.new.places ≡ program.old.places) }
    ensures computes { IfOk result (λ f. Computes program.old program.new (λ values. formula_level values f) (logic bit.now)) }
{
    match bit {
        Bit::And(x, y) => {
            let second = literal_of(program, x)?;
            let third = literal_of(program, y)?;
            Ok(Formula {
                first: LOW,
                second,
                third,
            })
        }
        _ => Ok(only_factor(literal_of(program, bit)?)),
    }
}

// The formula of an expression. Adds the operations and taps of its parts.
fn formula_of(program: &mut Program, bit: &Bit) -> Result<Formula, NoMemory>
    requires { Fits program.old.places (logic bit.now) }
    ensures within { IfOk result (λ f. IsWithin program.new.room f) }
    ensures places { OnOk result (program.new.places ≡ program.old.places) }
    ensures computes { IfOk result (λ f. Computes program.old program.new (λ values. formula_level values f) (logic bit.now)) }
{
    match bit {
        Bit::Or(x, y) => {
            let first = literal_of(program, x)?;
            let rest = product_of(program, y)?;
            Ok(Formula { first, ..rest })
        }
        Bit::And(_, _) => product_of(program, bit),
        _ => Ok(alone(literal_of(program, bit)?)),
    }
}

// Adds the operations of an assign.
fn add(program: &mut Program, assign: &Assign) -> Result<(), NoMemory>
    requires target { IsPlaced program.old.places assign.now.target }
    requires fits { Fits program.old.places assign.now.bit }
    ensures { OnOk result (Activates program.old program.new assign.now) }
{
    let formula = formula_of(program, assign.bit())?;
    let to = program.target(assign.target());
    program.rules();
    program.operate(to, formula)?;
    program.rules();
    Ok(())
}

/// The operations of all assigns of a module.
pub fn compile(alloc: Global, m: &Module) -> Result<Program, NoMemory>
    ensures { IfOk result (λ program. IsPlan m.now program) }
{
    m.rules();
    let mut program = Program::empty(alloc, m)?;
    for assign in m.assigns() {
        add(&mut program, assign)?;
    }
    Ok(program)
}
