//! Assign and always statements.
ghost use Rattle.std.specs.Prelude.{◌≡◌, ◌&&◌, ◌||◌, not, true, ℕ, List, is_some, slice_get, slice_set, decimal, bytes_eq, OnOk};
ghost use Rattle.verilog_text.specs.Grammar as g;
ghost use Rattle.verilog_text.specs.Judging as j;
ghost use Rattle.circuit.specs.View.{logic};
ghost use Rattle.verilog_syntax.specs.View as v;
ghost use Rattle.verilog_read.specs.Scope.{find};
ghost use Rattle.verilog_read.specs.Known.{meaning_found, is_reg, is_flagged_reg, names_reg_by, resolved_by};
ghost use Rattle.verilog_read.specs.Draft.{IsOfSome, Adds, Judges, IsJudgedBy, is_assigned_by, is_update_reg, update_at, set_register, assign_misnamed_by, assign_misordered_by, regs_misnamed_by};

use crate::draft::{Draft, StepError};
use crate::expressions::{is_set, judge_written};
use crate::judged::Judged;
use crate::scope::{Meaning, Scope};
use itoa::Buffer;
use rl_time::NoMemory;
use std::alloc::Global;
use verilog_syntax::{Always, Next, Written};
use verilog_text::{Assign, Bit, Reg, Rule, Target};

fn target_of(meaning: Option<Meaning>) -> Option<Target>
    ensures { result ≡ j.target_of (meaning_found meaning) }
{
    match meaning {
        Some(Meaning::Wire(w)) => Some(Target::Wire(w)),
        Some(Meaning::Output(o)) => Some(Target::Out(o)),
        _ => None,
    }
}

fn is_assigned(draft: &Draft<'_>, target: Option<Target>) -> bool
    ensures { result ≡ is_assigned_by draft.now.given_wires.items draft.now.given_outputs.items target }
{
    match target {
        Some(Target::Wire(w)) => is_set(&draft.given_wires, w),
        Some(Target::Out(o)) => is_set(&draft.given_outputs, o),
        None => false,
    }
}

fn set_flag(flags: &mut Vec<bool>, place: u32)
    ensures { flags.new.items ≡ slice_set flags.old.items place true }
{
    if let Some(flag) = flags.get_mut(place as usize) {
        *flag = true;
    }
}

fn assign_misnamed(draft: &Draft<'_>, name: &[u8], judged: &Judged) -> bool
    ensures { (e : g.Expression) → IsJudgedBy draft.now e judged.now → result ≡ assign_misnamed_by draft.now name.now e }
{
    let target = target_of(draft.scope.get(name));
    target.is_none() || !judged.findings.known
}

fn assign_misordered(draft: &Draft<'_>, name: &[u8], judged: &Judged) -> bool
    ensures { (e : g.Expression) → IsJudgedBy draft.now e judged.now → result ≡ assign_misordered_by draft.now name.now e }
{
    let target = target_of(draft.scope.get(name));
    !judged.findings.given || is_assigned(draft, target)
}

fn push_assign(draft: &mut Draft<'_>, name: &[u8], bit: Bit) -> Result<(), NoMemory>
    ensures { OnOk result ((e : g.Expression) → logic bit ≡ resolved_by (find draft.old.scope) e → Adds draft.old (g.Assign name.now e) draft.new) }
{
    match target_of(draft.scope.get(name)) {
        Some(Target::Wire(w)) => {
            draft.assigns.push(Assign::new(Target::Wire(w), bit))?;
            set_flag(&mut draft.given_wires, w);
        }
        Some(Target::Out(o)) => {
            draft.assigns.push(Assign::new(Target::Out(o), bit))?;
            set_flag(&mut draft.given_outputs, o);
        }
        None => {}
    }
    Ok(())
}

/// Checks an assign against the statements before it, and keeps it if it breaks no rule.
pub fn read_assign(
    alloc: Global,
    draft: &mut Draft<'_>,
    name: &[u8],
    written: Written<'_>,
) -> Result<(), StepError>
    requires { IsOfSome draft.old }
    ensures { Judges draft.old (g.Assign name.now (v.expression written.entry)) draft.new result }
{
    let judged = judge_written(alloc, written, draft)?;
    if assign_misnamed(draft, name, &judged) {
        return Err(StepError::Broken(Rule::Name));
    }
    if assign_misordered(draft, name, &judged) {
        return Err(StepError::Broken(Rule::Order));
    }
    if !judged.findings.fits {
        return Err(StepError::Broken(Rule::Width));
    }
    push_assign(draft, name, judged.bit)?;
    Ok(())
}

fn is_reg(meaning: Option<Meaning>) -> bool
    ensures { result ≡ is_reg meaning }
{
    match meaning {
        Some(Meaning::Reg(_)) => true,
        _ => false,
    }
}

/// The expression that is written in what a register takes.
fn expression_of(next: Next<'_>) -> Written<'_>
    ensures { v.expression result ≡ j.expression_of (v.next next.entry) }
{
    match next {
        Next::Whole(written) => written,
        Next::Shifted(_, _, written) => written,
    }
}

fn names_reg(next: &Next<'_>, scope: &Scope<'_>) -> bool
    ensures { result ≡ names_reg_by (find scope.now) (v.next next.now) }
{
    match next {
        Next::Whole(_) => true,
        Next::Shifted(name, _, _) => is_reg(scope.get(name)),
    }
}

fn is_decimal(digits: &[u8], number: u32) -> bool
    ensures { result ≡ bytes_eq digits.now (decimal number) }
{
    let mut buffer = Buffer::new();
    digits == buffer.format(number).as_bytes()
}

/// Whether these are so many bits, all 0.
fn are_zero_bits(bits: &[u8], width: u32) -> bool
    ensures { result ≡ bytes_eq bits.now (j.zero_bits width) }
{
    match bits.strip_suffix(b"'b0") {
        Some(digits) => is_decimal(digits, width),
        None => false,
    }
}

fn has_form(name: &[u8], width: u32, next: &Next<'_>) -> bool
    ensures { result ≡ j.has_form name.now width (v.next next.now) }
{
    match next {
        Next::Whole(_) => width == 1,
        Next::Shifted(shifted, last, _) => {
            1 < width && *shifted == name && is_decimal(last, width - 2)
        }
    }
}

fn is_update(reg: &Reg, always: &Always<'_>) -> bool
    ensures { result ≡ is_update_reg (Some reg.now) always.now.zero.now always.now.update.now (v.next always.now.next) }
{
    let name = reg.name().bytes();
    let width = reg.width();
    always.update == name
        && are_zero_bits(always.zero, width)
        && has_form(name, width, &always.next)
}

fn is_update_at(draft: &Draft<'_>, meaning: Option<Meaning>, always: &Always<'_>) -> bool
    ensures { result ≡ update_at draft.now.regs.items meaning always.now.zero.now always.now.update.now (v.next always.now.next) }
{
    match meaning {
        Some(Meaning::Reg(r)) => match draft.regs.get(r as usize) {
            Some(reg) => is_update(reg, always),
            None => true,
        },
        _ => true,
    }
}

fn is_updated(draft: &Draft<'_>, meaning: Option<Meaning>) -> bool
    ensures { result ≡ is_flagged_reg draft.now.updated.items meaning }
{
    match meaning {
        Some(Meaning::Reg(r)) => is_set(&draft.updated, r),
        _ => false,
    }
}

/// Whether a name outside of the expression means no register.
fn always_misnamed(draft: &Draft<'_>, always: &Always<'_>) -> bool
    ensures { result ≡ regs_misnamed_by draft.now always.now.reset.now always.now.update.now (v.next always.now.next) }
{
    !is_reg(draft.scope.get(always.reset))
        || !is_reg(draft.scope.get(always.update))
        || !names_reg(&always.next, &draft.scope)
}

/// The registers, where the one at this place takes this.
fn set_next(regs: &mut Vec<Reg>, place: u32, next: Bit)
    ensures { regs.new.items ≡ set_register place (slice_get regs.old.items place) (logic next) regs.old.items }
{
    if let Some(reg) = regs.get_mut(place as usize) {
        reg.set_next(next);
    }
}

fn push_always(draft: &mut Draft<'_>, reset: &[u8], next: Bit)
    ensures { (z s : List ℕ) (e : g.Next) → logic next ≡ resolved_by (find draft.old.scope) (j.expression_of e) → Adds draft.old (g.Always reset.now z s e) draft.new }
{
    if let Some(Meaning::Reg(r)) = draft.scope.get(reset) {
        set_next(&mut draft.regs, r, next);
        set_flag(&mut draft.updated, r);
    }
}

/// Judges an always statement, and keeps what its register takes where it breaks no rule.
pub fn read_always(
    alloc: Global,
    draft: &mut Draft<'_>,
    always: Always<'_>,
) -> Result<(), StepError>
    requires { IsOfSome draft.old }
    ensures { Judges draft.old (g.Always always.entry.reset.now always.entry.zero.now always.entry.update.now (v.next always.entry.next)) draft.new result }
{
    let name = always.reset;
    let reset = draft.scope.get(name);
    let misnamed = always_misnamed(draft, &always);
    let is_update = is_update_at(draft, reset, &always);
    let judged = judge_written(alloc, expression_of(always.next), draft)?;
    if misnamed || !judged.findings.known {
        return Err(StepError::Broken(Rule::Name));
    }
    if is_updated(draft, reset) {
        return Err(StepError::Broken(Rule::Order));
    }
    if !judged.findings.fits || !is_update {
        return Err(StepError::Broken(Rule::Width));
    }
    push_always(draft, name, judged.bit);
    Ok(())
}
