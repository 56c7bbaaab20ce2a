ghost use Rattle.std.specs.Prelude.{◌≡◌};
ghost use Rattle.verilog_read.specs.declared.draft.StepError.TheVariants.{NoMemory};

use crate::scope::Scope;
use rl_text::Name;
use verilog_text::{Assign, Reg, Rule};

/// Why a statement was rejected.
#[derive(Clone, Copy, Debug, PartialEq, Eq)]
pub enum StepError {
    Broken(Rule),
    NoMemory,
}

impl From<rl_time::NoMemory> for StepError {
    ghost from_gives = { λ _ e. e ≡ NoMemory };

    fn from(_e: rl_time::NoMemory) -> StepError {
        StepError::NoMemory
    }
}

/// The rule that statements break first, and the line of the statement that breaks it.
#[derive(Clone, Copy, Debug, PartialEq, Eq)]
pub struct Fault {
    pub rule: Rule,
    pub line: u32,
}

/// What is kept of the statements so far: the ports that are still to be declared, the declared names, and the parts of
/// the module, where a register without an always statement takes 0. The flags say which wires and which outputs have
/// an assign, and which registers an always statement.
#[derive(Drop)]
pub struct Draft<'a> {
    pub to_declare: Vec<&'a [u8]>,
    pub scope: Scope<'a>,
    pub inputs: Vec<Name>,
    pub outputs: Vec<Name>,
    pub wires: Vec<Name>,
    pub regs: Vec<Reg>,
    pub assigns: Vec<Assign>,
    pub given_wires: Vec<bool>,
    pub given_outputs: Vec<bool>,
    pub updated: Vec<bool>,
    pub bits: u32,
}
