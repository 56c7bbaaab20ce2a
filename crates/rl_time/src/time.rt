ghost use Rattle.std.specs.Prelude.{◌≡◌};
ghost use Rattle.rl_time.specs.Time.{time_min, time_max, time_lt, time_inc, HasRoom};

use std::alloc::{AllocError, AllocFailed};

/// A time in cycles, counted from 0, or never. `Never` is greater than every number.
#[derive(Clone, Copy, Debug, PartialEq, Eq)]
pub enum Time {
    At(u64),
    Never,
}

/// Memory ran out: the error that any call which allocates may give.
#[derive(Clone, Copy, Debug, PartialEq, Eq)]
pub struct NoMemory;

impl From<AllocError> for NoMemory {
    fn from(_: AllocError) -> Self {
        NoMemory
    }
}

impl<T: Drop> From<AllocFailed<T>> for NoMemory {
    fn from(_: AllocFailed<T>) -> Self {
        NoMemory
    }
}

impl Time {
    /// The smaller of two times (`min`).
    pub fn earlier(self, other: Time) -> Time
        ensures { result ≡ time_min self other }
    {
        match (self, other) {
            (Time::At(a), Time::At(b)) => Time::At(a.min(b)),
            (Time::Never, t) => t,
            (t, Time::Never) => t,
        }
    }

    /// The greater of two times (`max`).
    pub fn later(self, other: Time) -> Time
        ensures { result ≡ time_max self other }
    {
        match (self, other) {
            (Time::At(a), Time::At(b)) => Time::At(a.max(b)),
            _ => Time::Never,
        }
    }

    /// This time where it is before the other, else never (`lt`). A tie gives never.
    pub fn before(self, other: Time) -> Time
        ensures { result ≡ time_lt self other }
    {
        match (self, other) {
            (Time::At(a), Time::At(b)) if b <= a => Time::Never,
            _ => self,
        }
    }

    /// This time, some cycles later (`inc`). Never stays never.
    pub fn delayed(self, by: u64) -> Time
        requires { HasRoom self by }
        ensures { result ≡ time_inc self by }
    {
        match self {
            Time::At(a) => Time::At(a + by),
            Time::Never => Time::Never,
        }
    }
}
