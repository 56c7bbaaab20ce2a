ghost use Rattle.std.specs.Prelude.{◌≡◌};
ghost use Rattle.rl_flow.specs.Status.{code_of};

/// How a run ends.
#[derive(Clone, Copy, Debug, PartialEq, Eq)]
pub enum Status {
    /// Done.
    Done,
    /// The answer is no.
    No,
    /// The words are no command.
    Words,
    /// The input is refused.
    Refused,
    /// A file of the command could not be read.
    ReadFault,
    /// Standard output failed.
    WriteFault,
    /// Memory ran out.
    NoMemory,
    /// The question stays open. No command of this version gives it.
    Undecided,
}

impl Status {
    /// The number with which the process ends.
    pub fn code(&self) -> u8
        ensures { result ≡ code_of self.now }
    {
        match self {
            Status::Done => 0,
            Status::No => 1,
            Status::Words => 2,
            Status::Refused => 3,
            Status::ReadFault => 4,
            Status::WriteFault => 5,
            Status::NoMemory => 6,
            Status::Undecided => 7,
        }
    }
}
