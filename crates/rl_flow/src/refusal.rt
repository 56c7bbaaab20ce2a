ghost use Rattle.std.specs.Prelude.{◌≡◌};
ghost use Rattle.rl_flow.specs.Status.{status_of};

use crate::status::Status;
use rl_jobs::{Fault, JobError};
use rl_time::NoMemory;
use std::alloc::AllocFailed;

/// Why a command isn't answered. Files are numbered from 1, in the order of the words.
#[derive(Clone, Copy, Debug, PartialEq, Eq)]
pub enum Refusal {
    /// The words are no command.
    Words,
    /// The file of this number is longer than this limit, in bytes (E01).
    TooLong(u8, u64),
    /// The files were read, and what they hold is refused.
    Refused(Fault),
    /// The file of this number could not be read.
    ReadFault(u8),
    /// Standard output failed.
    WriteFault,
    /// Memory ran out.
    NoMemory,
}

impl From<NoMemory> for Refusal {
    ghost use Rattle.std.specs.Prelude.{◌≡◌};
    ghost use Rattle.rl_flow.specs.declared.refusal.Refusal.TheVariants.{NoMemory};

    ghost from_gives = { λ _ e. e ≡ NoMemory };

    fn from(_: NoMemory) -> Self {
        Refusal::NoMemory
    }
}

impl<T: Drop> From<AllocFailed<T>> for Refusal {
    ghost use Rattle.std.specs.Prelude.{◌≡◌};
    ghost use Rattle.rl_flow.specs.declared.refusal.Refusal.TheVariants.{NoMemory};

    ghost from_gives = { λ _ e. e ≡ NoMemory };

    fn from(_: AllocFailed<T>) -> Self {
        Refusal::NoMemory
    }
}

impl From<JobError> for Refusal {
    ghost use Rattle.std.specs.Prelude.{◌≡◌};
    ghost use Rattle.rl_flow.specs.Jobs.{refusal_of};

    ghost from_gives = { λ e r. r ≡ refusal_of e };

    fn from(error: JobError) -> Self {
        match error {
            JobError::Refused(fault) => Refusal::Refused(fault),
            JobError::NoMemory => Refusal::NoMemory,
        }
    }
}

impl Refusal {
    /// The status with which the run ends.
    pub fn status(&self) -> Status
        ensures { result ≡ status_of self.now }
    {
        match self {
            Refusal::Words => Status::Words,
            Refusal::TooLong(_, _) | Refusal::Refused(_) => Status::Refused,
            Refusal::ReadFault(_) => Status::ReadFault,
            Refusal::WriteFault => Status::WriteFault,
            Refusal::NoMemory => Status::NoMemory,
        }
    }
}
