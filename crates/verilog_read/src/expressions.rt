//! What is found out of an expression as it is written.
ghost use Rattle.std.specs.Prelude.{◌≡◌, true, false, min, slice_get, slice_index_or, IfOk};
ghost use Rattle.verilog_text.specs.Judging.{number_of};
ghost use Rattle.circuit.specs.View.{logic};
ghost use Rattle.verilog_syntax.specs.View.{expression};
ghost use Rattle.verilog_text.specs.Grammar as g;
ghost use Rattle.verilog_read.specs.Known.{is_one_bit_reg, has_bit_reg};
ghost use Rattle.verilog_read.specs.Draft.{IsJudgedBy};
ghost use Rattle.verilog_read.specs.Joined.{is_joined, join};
ghost use Rattle.verilog_read.specs.declared.draft.Draft as source_draft;

use crate::draft::Draft;
use crate::judged::{Findings, Judged};
use crate::scope::Meaning;
use crate::spine::spine;
use rl_time::NoMemory;
use std::alloc::Global;
use verilog_syntax::Written;
use verilog_text::{Bit, Reg};

/// A number, as far as it matters.
pub fn number(digits: &[u8]) -> u32
    ensures { result ≡ min (number_of digits.now) 100000 }
{
    let mut n: u32 = 0;
    for d in digits {
        n = (n * 10 + u32::from(d.saturating_sub(48))).min(100000);
    }
    n
}

/// The flag at a place, and false past the end.
pub fn is_set(flags: &[bool], place: u32) -> bool
    ensures { result ≡ slice_index_or flags.now place false }
{
    match flags.get(place as usize) {
        Some(flag) => *flag,
        None => false,
    }
}

fn is_one_bit(regs: &[Reg], place: u32) -> bool
    ensures { result ≡ is_one_bit_reg (slice_get regs.now place) }
{
    match regs.get(place as usize) {
        Some(reg) => reg.width() == 1,
        None => true,
    }
}

fn has_bit(regs: &[Reg], place: u32, bit: u32) -> bool
    ensures { result ≡ has_bit_reg bit (slice_get regs.now place) }
{
    match regs.get(place as usize) {
        Some(reg) => 1 < reg.width() && bit < reg.width(),
        None => true,
    }
}

/// A name in an expression.
fn judge_name(name: &[u8], draft: &Draft<'_>) -> Judged
    ensures { IsJudgedBy draft.now (g.Name name.now) result }
{
    let (bit, known, given, fits) = match draft.scope.get(name) {
        Some(Meaning::Input(i)) => (Bit::Input(i), true, true, true),
        Some(Meaning::Wire(w)) => (Bit::Wire(w), true, is_set(&draft.given_wires, w), true),
        Some(Meaning::Reg(r)) => (Bit::Reg(r, 0), true, true, is_one_bit(&draft.regs, r)),
        _ => (Bit::Zero, false, true, true),
    };
    Judged {
        bit,
        findings: Findings { known, given, fits },
    }
}

/// A bit of a register.
fn judge_bit(name: &[u8], digits: &[u8], draft: &Draft<'_>) -> Judged
    ensures { IsJudgedBy draft.now (g.Bit name.now digits.now) result }
{
    let (bit, known, fits) = match draft.scope.get(name) {
        Some(Meaning::Reg(r)) => {
            let place = number(digits);
            (Bit::Reg(r, place), true, has_bit(&draft.regs, r, place))
        }
        _ => (Bit::Zero, false, true),
    };
    Judged {
        bit,
        findings: Findings {
            known,
            given: true,
            fits,
        },
    }
}

fn constant(bit: Bit) -> Judged
    ensures { (logic result.bit ≡ logic bit) × (result.findings.known ≡ true) × (result.findings.given ≡ true) × (result.findings.fits ≡ true) }
{
    Judged {
        bit,
        findings: Findings {
            known: true,
            given: true,
            fits: true,
        },
    }
}

/// Two parts with `&` or `|` between them.
fn join(alloc: Global, is_and: bool, a: Judged, b: Judged) -> Result<Judged, NoMemory>
    ensures { IfOk result (λ x. (d : source_draft.Draft) (e f : g.Expression) → IsJudgedBy d e a → IsJudgedBy d f b → IsJudgedBy d (join is_and e f) x) }
{
    let findings = a.findings.and(b.findings);
    let left = Box::new(alloc, a.bit)?;
    let right = Box::new(alloc, b.bit)?;
    let bit = if is_and {
        Bit::And(left, right)
    } else {
        Bit::Or(left, right)
    };
    Ok(Judged { bit, findings })
}

/// An expression that is no `&` and no `|`.
#[cycle(walk)]
fn judge_single(alloc: Global, written: Written<'_>, draft: &Draft<'_>) -> Result<Judged, NoMemory>
    requires single { is_joined (expression written) ≡ false }
    ensures { IfOk result (IsJudgedBy draft.now (expression written.entry)) }
{
    match written {
        Written::Low => Ok(constant(Bit::Zero)),
        Written::High => Ok(constant(Bit::One)),
        Written::Name(name) => Ok(judge_name(name, draft)),
        Written::Bit(name, digits) => Ok(judge_bit(name, digits, draft)),
        Written::Not(a) => {
            let a = judge_written(alloc, Box::into_inner(a), draft)?;
            Ok(Judged {
                bit: Bit::Not(Box::new(alloc, a.bit)?),
                findings: a.findings,
            })
        }
        Written::Group(a) => judge_written(alloc, Box::into_inner(a), draft),
        Written::And(_, _) => unreachable!(),
        Written::Or(_, _) => unreachable!(),
    }
}

/// An expression, whose names are looked up in the draft. It calls itself for what is in groups and after signs, but not
/// for what is before a sign, so that no text needs a deep stack.
#[cycle(walk)]
pub fn judge_written(
    alloc: Global,
    written: Written<'_>,
    draft: &Draft<'_>,
) -> Result<Judged, NoMemory>
    ensures { IfOk result (IsJudgedBy draft.now (expression written.entry)) }
{
    let (first, mut joints) = spine(alloc, written)?;
    let mut all = judge_single(alloc, first, draft)?;
    while let Some(joint) = joints.pop() {
        let part = judge_written(alloc, joint.part, draft)?;
        all = join(alloc, joint.is_and, all, part)?;
    }
    Ok(all)
}
