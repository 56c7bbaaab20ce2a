use rl_time::Time;
use std::marker::Model;

/// Up to 64 times, each `never` or at most 1,000,000,000,000, seen as their list.
#[derive(Drop)]
pub struct Times {
    times: [Time; 64],
    count: usize,
}

impl Model for Times {
    ghost use Rattle.std.specs.Prelude.{List, ◌≤◌, take};
    ghost use Rattle.rl_time.specs.declared.time.Time.{Time};
    ghost use Rattle.net_model.specs.Early.{AreEarly};

    ghost Value = { List Time };

    ghost view = { λ t. take t.count t.times };

    ghost invariant = { λ t. (t.count ≤ 64) × AreEarly (take t.count t.times) };
}

impl Times {
    ghost use Rattle.std.specs.Prelude.{◌≡◌, ◌<◌, ◌++◌, ◌∷◌, [], length};
    ghost use Rattle.net_model.specs.Early.{IsAtMost, AreEarly};

    /// No times.
    pub fn new() -> Times
        ensures { result ≡ [] }
    {
        Times {
            times: [Time::Never; 64],
            count: 0,
        }
    }

    /// Adds a time at the end.
    pub fn push(&mut self, time: Time)
        requires room { length self.old < 64 }
        requires early { IsAtMost 1000000000000 time }
        ensures { self.new ≡ self.old ++ time ∷ [] }
    {
        self.times[self.count] = time;
        self.count += 1;
    }

    /// The times, in order.
    pub fn as_slice(&self) -> &[Time]
        ensures times { result.now ≡ self.now }
        ensures early { AreEarly result.now }
    {
        &self.times[..self.count]
    }
}
