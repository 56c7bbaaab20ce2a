ghost use Rattle.std.specs.Prelude.{◌≡◌};

use std::alloc::{AllocError, AllocFailed};

/// Why words are no statements. `At` holds the line, from 1, of the first place at which no permitted statement begins.
#[derive(Clone, Copy, Debug, PartialEq, Eq)]
pub enum SyntaxError {
    At(u32),
    NoMemory,
}

impl From<AllocError> for SyntaxError {
    ghost use Rattle.verilog_syntax.specs.declared.error.SyntaxError.TheVariants.{NoMemory};

    ghost from_gives = { λ _ e. e ≡ NoMemory };

    fn from(_e: AllocError) -> SyntaxError {
        SyntaxError::NoMemory
    }
}

impl<T: Drop> From<AllocFailed<T>> for SyntaxError {
    ghost use Rattle.verilog_syntax.specs.declared.error.SyntaxError.TheVariants.{NoMemory};

    ghost from_gives = { λ _ e. e ≡ NoMemory };

    fn from(_e: AllocFailed<T>) -> SyntaxError {
        SyntaxError::NoMemory
    }
}

/// Why the words begin with no such part.
#[derive(Clone, Copy, Debug, PartialEq, Eq)]
pub enum ReadError {
    Syntax,
    NoMemory,
}

impl From<AllocError> for ReadError {
    ghost use Rattle.verilog_syntax.specs.declared.error.ReadError.TheVariants.{NoMemory};

    ghost from_gives = { λ _ e. e ≡ NoMemory };

    fn from(_e: AllocError) -> ReadError {
        ReadError::NoMemory
    }
}

impl<T: Drop> From<AllocFailed<T>> for ReadError {
    ghost use Rattle.verilog_syntax.specs.declared.error.ReadError.TheVariants.{NoMemory};

    ghost from_gives = { λ _ e. e ≡ NoMemory };

    fn from(_e: AllocFailed<T>) -> ReadError {
        ReadError::NoMemory
    }
}
