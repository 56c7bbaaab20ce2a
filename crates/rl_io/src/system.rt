ghost use Rattle.std.specs.Prelude.{ℕ, List, None, IfOk, ◌≡◌, ◌<◌, ◌≤◌, true, false, length};
ghost use Rattle.rl_io.specs.Shelf.{FetchReads, FetchCounts, FetchFails};
ghost use Rattle.rl_io.specs.Sink.{PutAdds, PutFails};
ghost use Rattle.rl_io.specs.Streams.{after_fetch, after_put};

use crate::shelf::{Fetched, Shelf};
use crate::sink::{Put, Sink};
use arrayvec::ArrayString;
use std::fs::File;
use std::io;
use std::io::{Error, ErrorKind, Read, Seek, SeekFrom, Stderr, Stdout};
use std::marker::Model;

/// A file that is being read, and the place up to which it was read.
#[derive(Drop)]
struct Reading {
    name: ArrayString<4096>,
    file: File,
    place: u64,
}

impl Reading {
    /// Opens the file of this name at this place. A name of more than 4,096 bytes is an error, as it is for the system.
    fn open(rt: &HostRuntime, name: &str, place: u64) -> io::Result<Reading> {
        let Ok(kept) = ArrayString::from(name) else {
            return Err(Error::from(ErrorKind::InvalidInput));
        };
        let mut file = File::open(rt, name)?;
        if place > 0 {
            file.seek(SeekFrom::Start(place))?;
        }
        Ok(Reading {
            name: kept,
            file,
            place,
        })
    }

    /// The file that is being read, where it has this name and was read up to this place, which isn't its beginning; else
    /// the file of this name, opened anew.
    fn at(rt: &HostRuntime, open: Option<Reading>, name: &str, place: u64) -> io::Result<Reading> {
        if let Some(reading) = open {
            if place > 0 && reading.place == place && reading.name.as_str() == name {
                return Ok(reading);
            }
        }
        Reading::open(rt, name, place)
    }
}

/// The files of the system. What they hold is not known, and the count of faults is one for all names.
///
/// A file is opened by the fetch at its beginning, and stays open for the fetches that read on where the last one ended. So a
/// pipe can be read, and a file that is replaced meanwhile isn't mixed with the new one.
#[derive(Drop)]
pub struct FileShelf {
    rt: HostRuntime,
    reading: Option<Reading>,
    faults: u64,
    given: u64,
}

impl Model for FileShelf {
    ghost use Rattle.std.specs.Prelude.{◌-◌, ◌^◌, ◌≤◌};
    ghost use Rattle.rl_io.specs.Streams.{FileCounts};

    ghost Value = { FileCounts };

    ghost view = { λ s. record { faults = s.faults; given = s.given } };

    ghost invariant = { λ s. (s.faults ≤ 2 ^ 64 - 1) × (s.given ≤ 2 ^ 64 - 1) };
}

impl FileShelf {
    /// The files that the program's runtime opens.
    pub fn new(rt: &HostRuntime) -> FileShelf
        ensures { result ≡ record { faults = 0; given = 0 } }
    {
        FileShelf {
            rt: *rt,
            reading: None,
            faults: 0,
            given: 0,
        }
    }
}

impl FileShelf {
    /// Reads bytes from a place on. After the file's end, or an error, no file is open. No heap is taken.
    fn read(&mut self, name: &str, place: u64, buf: &mut [u8]) -> io::Result<usize>
        ensures bound { IfOk result (λ n. n ≤ length buf.new) }
        ensures counts { self.new ≡ self.old }
    {
        let mut reading = Reading::at(&self.rt, self.reading.take(), name, place)?;
        let n = reading.file.read(buf)?;
        if n > 0 {
            reading.place = place.saturating_add(n as u64);
            self.reading = Some(reading);
        }
        Ok(n)
    }
}

impl Shelf for FileShelf {
    ghost contents = { λ _. None };

    ghost faults = { λ s _. s.faults };

    ghost given = { λ s. s.given };

    /// A name that can't be opened or read is a fault.
    fn fetch(&mut self, name: &str, at: u64, buf: &mut [u8]) -> Fetched
        requires { 0 < length buf.old }
        ensures later { (n : List ℕ) → self.old.faults ≤ self.new.faults }
        ensures grows { self.old.given ≤ self.new.given }
        ensures bytes { FetchReads result None name.now at buf.new }
        ensures given { FetchCounts result self.old.given self.new.given }
        ensures cause { FetchFails result self.old.faults self.new.faults }
        ensures after { self.new ≡ after_fetch self.old result }
    {
        match self.read(name, at, buf) {
            Ok(0) => Fetched::End,
            Ok(n) => {
                self.given = self.given.saturating_add(n as u64);
                Fetched::Got(n)
            }
            Err(_) => {
                self.faults = self.faults.saturating_add(1);
                Fetched::Failed
            }
        }
    }
}

#[derive(Clone, Copy)]
enum Stream {
    Out(Stdout),
    Err(Stderr),
}

/// Standard output or standard error. What it took is not known.
#[derive(Drop)]
pub struct StdSink {
    stream: Stream,
    faults: u64,
}

impl Model for StdSink {
    ghost use Rattle.rl_io.specs.Streams.{StreamCounts};

    ghost Value = { StreamCounts };

    ghost use Rattle.rl_io.specs.Streams.{is_standard_error};

    ghost view = { λ s. record { is_error = is_standard_error s.stream; faults = s.faults } };
}

impl StdSink {
    /// Standard output.
    pub fn out(rt: &HostRuntime) -> StdSink
        ensures { result ≡ record { is_error = false; faults = 0 } }
    {
        StdSink {
            stream: Stream::Out(rt.stdout()),
            faults: 0,
        }
    }

    /// Standard error.
    pub fn err(rt: &HostRuntime) -> StdSink
        ensures { result ≡ record { is_error = true; faults = 0 } }
    {
        StdSink {
            stream: Stream::Err(rt.stderr()),
            faults: 0,
        }
    }
}

fn write_some(stream: &Stream, piece: &[u8]) -> io::Result<usize>
    ensures { IfOk result (λ n. n ≤ length piece.now) }
{
    match stream {
        Stream::Out(out) => out.write_some(piece),
        Stream::Err(err) => err.write_some(piece),
    }
}

impl Sink for StdSink {
    ghost written = { λ _. None };

    ghost faults = { λ s. s.faults };

    /// A write that takes no byte is a fault.
    fn put(&mut self, piece: &[u8]) -> Put
        requires { 0 < length piece.now }
        ensures later { self.old.faults ≤ self.new.faults }
        ensures bytes { PutAdds result piece.now None None }
        ensures cause { PutFails result self.old.faults self.new.faults }
        ensures after { self.new ≡ after_put self.old result }
    {
        match write_some(&self.stream, piece) {
            Ok(0) | Err(_) => {
                self.faults = self.faults.saturating_add(1);
                Put::Failed
            }
            Ok(n) => Put::Took(n),
        }
    }
}
