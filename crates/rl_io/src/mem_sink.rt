ghost use Rattle.std.specs.Prelude.{◌≡◌, ◌≤◌, ◌<◌, ◌↔◌, [], length, Some, IfOk};
ghost use Rattle.rl_io.specs.Sink.{PutAdds, PutFails};
ghost use Rattle.rl_io.specs.MemSink.{IsHeldBytes, plan_of, IsToFail, after_put, Takes, taken_size};

use crate::sink::{Put, Sink};
use rl_time::NoMemory;
use std::alloc::Global;
use std::marker::Model;

/// Keeps what it takes in memory, for a run without a system. It exposes what it took, its room and the numbers of the
/// calls that are to fail.
#[derive(Drop)]
pub struct MemSink {
    written: Vec<u8>,
    room: usize,
    chunk: usize,
    fails: Vec<u64>,
    calls: u64,
    faults: u64,
}

impl Model for MemSink {
    ghost use Rattle.std.specs.Prelude.{◌≤◌, vec_capacity};
    ghost use Rattle.rl_io.specs.MemSink.{HeldBytes, IsHeldBytes};

    ghost Value = { HeldBytes };

    ghost use Rattle.rl_io.specs.Views.{held_bytes};

    ghost view = { held_bytes };

    ghost invariant = { λ s. IsHeldBytes (held_bytes s) × (s.room ≤ vec_capacity s.written) };
}

impl MemSink {
    /// An empty sink with room for so many bytes, which it takes at once. Each put takes at most `chunk` bytes. Calls
    /// are counted from 1 up to 2^64 - 1, and those whose numbers are in `fails` fail.
    pub fn new(
        alloc: Global,
        room: usize,
        chunk: usize,
        fails: Vec<u64>,
    ) -> Result<MemSink, NoMemory>
        requires { 1 ≤ chunk }
        ensures { IfOk result (λ s. s ≡ record {
          written = [];
          room = room;
          chunk = chunk;
          fails = fails.items;
          calls = 0;
          faults = 0;
        }) }
    {
        Ok(MemSink {
            written: Vec::with_capacity(alloc, room)?,
            room,
            chunk,
            fails,
            calls: 0,
            faults: 0,
        })
    }

    /// The bytes that it took, in order.
    pub fn written(&self) -> &[u8]
        ensures { result.now ≡ self.now.written }
    {
        self.written.as_slice()
    }

    /// What is true of every such sink, for a proof that needs it.
    pub fn rules(&self)
        ensures { IsHeldBytes self.now }
    {
        let _ = &self.written;
    }
}

impl Sink for MemSink {
    ghost written = { λ s. Some s.written };

    ghost faults = { λ s. s.faults };

    ghost plan = { λ s. Some (plan_of s) };

    /// It fails exactly where the number of the call is in `fails` or no room is left. No heap is taken.
    fn put(&mut self, piece: &[u8]) -> Put
        requires { 0 < length piece.now }
        ensures planned { Some (plan_of self.new) ≡ Some (plan_of self.old) }
        ensures later { self.old.faults ≤ self.new.faults }
        ensures bytes { PutAdds result piece.now (Some self.old.written) (Some self.new.written) }
        ensures cause { PutFails result self.old.faults self.new.faults }
        ensures failed { (result ≡ Put.Failed) ↔ IsToFail self.old }
        ensures piece { Takes result (taken_size (length piece.now) self.old) }
        ensures after { self.new ≡ after_put self.old piece.now result }
    {
        self.calls = self.calls.saturating_add(1);
        let left = self.room - self.written.len();
        if left == 0 || self.fails.contains(&self.calls) {
            self.faults = self.faults.saturating_add(1);
            return Put::Failed;
        }
        let n = piece.len().min(self.chunk).min(left);
        match self.written.extend_from_slice(&piece[..n]) {
            Ok(()) => Put::Took(n),
            Err(_) => unreachable!(),
        }
    }
}
