ghost use Rattle.std.specs.Prelude.{◌≡◌};
ghost use Rattle.rl_flow.specs.Status.{status_with};
ghost use Rattle.rl_flow.specs.declared.verdict.Verdict.TheVariants.{Done};

use crate::status::Status;

/// How a command is answered whose files are not refused.
#[derive(Clone, Copy, Debug, PartialEq, Eq)]
pub enum Verdict {
    /// It is done.
    Done,
    /// The answer is no: a tree isn't valid, or an output differs.
    No,
    /// The question stays open: the budget is spent.
    Undecided,
}

/// A verdict, and the text that is written with it.
#[derive(Drop)]
pub struct Answer {
    pub verdict: Verdict,
    pub text: Vec<u8>,
}

impl Answer {
    /// What is done, and this text is written.
    pub fn done(text: Vec<u8>) -> Answer
        ensures verdict { result.verdict ≡ Done }
        ensures text { result.text ≡ text }
    {
        Answer {
            verdict: Verdict::Done,
            text,
        }
    }
}

impl Verdict {
    /// The status with which the run ends.
    pub fn status(&self) -> Status
        ensures { result ≡ status_with self.now }
    {
        match self {
            Verdict::Done => Status::Done,
            Verdict::No => Status::No,
            Verdict::Undecided => Status::Undecided,
        }
    }
}
