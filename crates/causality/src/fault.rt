ghost use Rattle.std.specs.Prelude.{◌≡◌};
ghost use Rattle.causality.specs.declared.fault.TabError.TheVariants.{NoMemory};

use std::fmt;

/// Why the rows of a table define no function of times. Rows and places count from 1: `NoZero` of a row that has no
/// entry 0; `Acausal` of a row and the place of its first entry that is greater than its output; `Same` of an earlier and
/// a later row that are the same; `Conflict` of an earlier and a later row, not the same, that both match some times.
#[derive(Clone, Copy, Debug, PartialEq, Eq)]
pub enum RowFault {
    NoZero(u32),
    Acausal(u32, u32),
    Same(u32, u32),
    Conflict(u32, u32),
}

/// Why an output of a network has no table within a window: more than 65,536 lists of the window's times; a value that is
/// a number of cycles greater than 255, the first that the walk meets; or more than 256 rows.
#[derive(Clone, Copy, Debug, PartialEq, Eq)]
pub enum TabError {
    TooWide,
    TooManyRows,
    TooLate(u64),
    NoMemory,
}

impl From<rl_time::NoMemory> for TabError {
    ghost from_gives = { λ _ e. e ≡ NoMemory };

    fn from(_e: rl_time::NoMemory) -> TabError {
        TabError::NoMemory
    }
}

impl fmt::Display for RowFault {
    fn fmt<W: fmt::Write>(&self, f: &mut fmt::Formatter<W>) -> fmt::Result {
        match self {
            RowFault::NoZero(row) => write!(f, "row {row} has no entry 0"),
            RowFault::Acausal(row, place) => write!(
                f,
                "entry {place} of row {row} is greater than its output"
            ),
            RowFault::Same(a, b) => write!(f, "rows {a} and {b} are the same"),
            RowFault::Conflict(a, b) => write!(f, "rows {a} and {b} match the same times"),
        }
    }
}

impl fmt::Display for TabError {
    fn fmt<W: fmt::Write>(&self, f: &mut fmt::Formatter<W>) -> fmt::Result {
        match self {
            TabError::TooWide => write!(f, "more than 65,536 lists of times"),
            TabError::TooManyRows => write!(f, "more than 256 rows"),
            TabError::TooLate(time) => write!(f, "an output at {time}, which is after 255"),
            TabError::NoMemory => write!(f, "out of memory"),
        }
    }
}
