ghost use Rattle.std.specs.Prelude.{◌≡◌, ◌≤◌, ◌<◌, ◌-◌, ◌^◌, ◌↔◌, ℕ, List, length, take, drop, All, Some, IfSome, IsTrue, is_some};
ghost use Rattle.std.specs.Option.{option_copied};
ghost use Rattle.rl_io.specs.Files.{entries, AreDistinct, file_under};
ghost use Rattle.rl_io.specs.Shelf.{FetchReads, FetchCounts, FetchFails};
ghost use Rattle.rl_io.specs.MemShelf.{IsHeldFiles, faults_under, IsToFail, after_fetch, Gives, piece_size};

use crate::shelf::{Fetched, Shelf};
use std::marker::Model;

/// Files in memory, for a run without a system. It exposes its files and the numbers of the calls that are to fail.
#[derive(Drop)]
pub struct MemShelf {
    files: Vec<(String, Vec<u8>)>,
    chunk: usize,
    fails: Vec<u64>,
    calls: u64,
    given: u64,
}

impl Model for MemShelf {
    ghost use Rattle.rl_io.specs.MemShelf.{HeldFiles, IsHeldFiles};

    ghost Value = { HeldFiles };

    ghost use Rattle.rl_io.specs.Views.{held_files};

    ghost view = { held_files };

    ghost invariant = { λ s. IsHeldFiles (held_files s) };
}

impl MemShelf {
    /// A shelf of these files, by name and bytes. Each fetch gives at most `chunk` bytes. Calls are counted from 1 up
    /// to 2^64 - 1, and those whose numbers are in `fails` fail.
    pub fn new(files: Vec<(String, Vec<u8>)>, chunk: usize, fails: Vec<u64>) -> MemShelf
        requires chunk { 1 ≤ chunk }
        requires names { AreDistinct (entries files.items) }
        requires early { All (λ f. f < 2 ^ 64 - 1) fails.items }
        ensures { result ≡ record {
          files = entries files.items;
          chunk = chunk;
          fails = fails.items;
          calls = 0;
          given = 0;
        } }
    {
        MemShelf {
            files,
            chunk,
            fails,
            calls: 0,
            given: 0,
        }
    }

    /// What is true of every such shelf, for a proof that needs it.
    pub fn rules(&self)
        ensures { IsHeldFiles self.now }
    {
        let _ = &self.files;
    }
}

fn find<'a>(files: &'a [(String, Vec<u8>)], name: &str) -> Option<&'a [u8]>
    ensures { option_copied result ≡ file_under name.now (entries files.now) }
{
    for file in files {
        if name == file.0.as_str() {
            return Some(file.1.as_slice());
        }
    }
    None
}

fn is_held(files: &[(String, Vec<u8>)], name: &str) -> bool
    ensures { result ≡ is_some (file_under name.now (entries files.now)) }
{
    find(files, name).is_some()
}

/// Whether no two of these files have one name, as `MemShelf::new` asks. Each name is compared with each later one, so
/// it is for the few files of such a shelf.
pub fn are_distinct(files: &[(String, Vec<u8>)]) -> bool
    ensures { IsTrue result ↔ AreDistinct (entries files.now) }
{
    let mut rest = files;
    while let Some((file, later)) = rest.split_first() {
        if is_held(later, file.0.as_str()) {
            return false;
        }
        rest = later;
    }
    true
}

fn copy_at(file: &[u8], at: u64, most: usize, buf: &mut [u8]) -> usize
    ensures count { result ≡ piece_size (length file.now) at most (length buf.old) }
    ensures bytes { take result buf.new ≡ take result (drop at file.now) }
{
    if at >= file.len() as u64 {
        return 0;
    }
    let start = at as usize;
    let n = (file.len() - start).min(most).min(buf.len());
    buf[..n].copy_from_slice(&file[start..start + n]);
    n
}

impl Shelf for MemShelf {
    ghost contents = { λ s. Some s.files };

    ghost faults = { faults_under };

    ghost given = { λ s. s.given };

    ghost plan = { λ s. Some s.fails };

    /// It fails exactly where the number of the call is in `fails` or no file has the name. No heap is taken.
    #[tactic(auto, using(crate::proofs::Faults::stays, crate::proofs::Faults::rises))]
    fn fetch(&mut self, name: &str, at: u64, buf: &mut [u8]) -> Fetched
        requires { 0 < length buf.old }
        ensures kept { Some self.new.files ≡ Some self.old.files }
        ensures planned { Some self.new.fails ≡ Some self.old.fails }
        ensures later { (n : List ℕ) → faults_under self.old n ≤ faults_under self.new n }
        ensures grows { self.old.given ≤ self.new.given }
        ensures bytes { FetchReads result (Some self.old.files) name.now at buf.new }
        ensures given { FetchCounts result self.old.given self.new.given }
        ensures cause { FetchFails result (faults_under self.old name.now) (faults_under self.new name.now) }
        ensures failed { (result ≡ Fetched.Failed) ↔ IsToFail self.old name.now }
        ensures piece { IfSome (file_under name.now self.old.files) (λ file.
            Gives result (piece_size (length file) at self.old.chunk (length buf.old))) }
        ensures after { self.new ≡ after_fetch self.old result }
    {
        self.calls = self.calls.saturating_add(1);
        if self.fails.contains(&self.calls) {
            return Fetched::Failed;
        }
        match find(&self.files, name) {
            None => Fetched::Failed,
            Some(file) => {
                let n = copy_at(file, at, self.chunk, buf);
                if n == 0 {
                    return Fetched::End;
                }
                self.given = self.given.saturating_add(n as u64);
                Fetched::Got(n)
            }
        }
    }
}
