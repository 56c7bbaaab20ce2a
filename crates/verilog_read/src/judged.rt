ghost use Rattle.std.specs.Prelude.{◌≡◌, ◌&&◌};

use verilog_text::Bit;

/// What holds of an expression: each name is declared, and of the kind that is wanted there; each wire that is named has
/// an assign; and each register is named as its width asks.
#[derive(Clone, Copy, Debug, PartialEq, Eq)]
pub struct Findings {
    pub known: bool,
    pub given: bool,
    pub fits: bool,
}

impl Findings {
    /// What holds of two expressions together.
    pub fn and(self, other: Findings) -> Findings
        ensures known { result.known ≡ (self.known && other.known) }
        ensures given { result.given ≡ (self.given && other.given) }
        ensures fits { result.fits ≡ (self.fits && other.fits) }
    {
        Findings {
            known: self.known && other.known,
            given: self.given && other.given,
            fits: self.fits && other.fits,
        }
    }
}

/// An expression with its names looked up, and what holds of it.
#[derive(Drop)]
pub struct Judged {
    pub bit: Bit,
    pub findings: Findings,
}
