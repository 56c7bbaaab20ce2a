use crate::fault::Fault;
use rl_time::NoMemory;

/// Why a job gave no text.
#[derive(Clone, Copy, Debug, PartialEq, Eq)]
pub enum JobError {
    /// What the files hold is refused.
    Refused(Fault),
    /// Memory ran out.
    NoMemory,
}

impl From<NoMemory> for JobError {
    ghost use Rattle.std.specs.Prelude.{◌≡◌};
    ghost use Rattle.rl_jobs.specs.declared.error.JobError.TheVariants.{NoMemory};

    ghost from_gives = { λ _ e. e ≡ NoMemory };

    fn from(_: NoMemory) -> Self {
        JobError::NoMemory
    }
}
