ghost use Rattle.std.specs.Prelude.{◌≡◌, ◌≤◌, ◌<◌, List, ℕ, Option, None, length};
ghost use Rattle.rl_io.specs.Sink.{PutAdds, PutFails, SinkPlan};

/// What a put answers.
#[derive(Clone, Copy, Debug, PartialEq, Eq)]
pub enum Put {
    /// So many bytes were taken, from the front.
    Took(usize),
    /// The put failed, and nothing was taken.
    Failed,
}

/// Takes bytes, one after another.
pub trait Sink {
    /// The bytes that it took, if the sink exposes them.
    ghost written: { Self → Option (List ℕ) };

    /// How often a put has failed. It never falls.
    ghost faults: { Self → ℕ };

    /// How many bytes the sink takes, and the numbers of the calls that are to fail, if it exposes them. No call
    /// changes them. A caller that knows them can know that no call fails.
    ghost plan: { Self → Option SinkPlan } = { λ _. None };

    /// Takes bytes from the front of `piece`, which isn't empty.
    ///
    /// `Took(n)` says that the first n bytes were taken, at least one. `Failed` is answered only if the faults rose, and
    /// then nothing was taken.
    fn put(&mut self, piece: &[u8]) -> Put
        requires { 0 < length piece.now }
        ensures planned { plan self.new ≡ plan self.old }
        ensures later { faults self.old ≤ faults self.new }
        ensures bytes { PutAdds result piece.now (written self.old) (written self.new) }
        ensures cause { PutFails result (faults self.old) (faults self.new) };
}
