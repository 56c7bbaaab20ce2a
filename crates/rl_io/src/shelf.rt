ghost use Rattle.std.specs.Prelude.{◌≡◌, ◌<◌, ◌≤◌, List, ℕ, Option, None, length};
ghost use Rattle.rl_io.specs.Files.{Files};
ghost use Rattle.rl_io.specs.Shelf.{FetchReads, FetchCounts, FetchFails};

/// What a fetch answers.
#[derive(Clone, Copy, Debug, PartialEq, Eq)]
pub enum Fetched {
    /// So many bytes were read.
    Got(usize),
    /// The file has no byte at this place.
    End,
    /// The fetch failed.
    Failed,
}

/// Files by their names.
pub trait Shelf {
    /// The files, if the shelf exposes them. No call changes them.
    ghost contents: { Self → Option Files };

    /// How often a fetch of this name has failed. It never falls.
    ghost faults: { Self → List ℕ → ℕ };

    /// How many bytes were handed out, up to 2^64 - 1. It never falls.
    ghost given: { Self → ℕ };

    /// The numbers of the calls that are to fail, if the shelf exposes them. No call changes them. A caller that
    /// knows them can know that no call fails.
    ghost plan: { Self → Option (List ℕ) } = { λ _. None };

    /// Reads bytes of the file of this name, from the place `at` on, into the front of `buf`, which isn't empty.
    ///
    /// `Got(n)` says that n bytes were read, from 1 to the length of `buf`; there may be more. `End` says that the
    /// file has no byte at this place. `Failed` is answered only if the faults under this name rose, as when no file
    /// has the name.
    fn fetch(&mut self, name: &str, at: u64, buf: &mut [u8]) -> Fetched
        requires { 0 < length buf.old }
        ensures kept { contents self.new ≡ contents self.old }
        ensures planned { plan self.new ≡ plan self.old }
        ensures later { (n : List ℕ) → faults self.old n ≤ faults self.new n }
        ensures grows { given self.old ≤ given self.new }
        ensures bytes { FetchReads result (contents self.old) name.now at buf.new }
        ensures given { FetchCounts result (given self.old) (given self.new) }
        ensures cause { FetchFails result (faults self.old name.now) (faults self.new name.now) };
}
