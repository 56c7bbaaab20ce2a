//! A script: files, calls, and what they answer.
use crate::answer::{File, answer_to};
use crate::line::Line;
use std::alloc::{AllocError, Global};
use std::io;

/// A file that is being read.
#[derive(Drop)]
struct Open {
    file: File,
    cut: bool,
}

/// A call whose answer is being read: its words, the file that its text goes to, and the lines that it should answer.
#[derive(Drop)]
struct Call {
    words: String,
    to: Option<String>,
    wanted: String,
}

/// A script that is being read, how many calls it made, and how many of them answered something else than it says.
#[derive(Drop)]
pub struct Script {
    alloc: Global,
    files: Vec<File>,
    open: Option<Open>,
    call: Option<Call>,
    pub calls: usize,
    pub wrong: usize,
}

impl Script {
    /// A script of no line yet.
    pub fn new(alloc: Global) -> Script {
        Script {
            alloc,
            files: Vec::new(alloc),
            open: None,
            call: None,
            calls: 0,
            wrong: 0,
        }
    }

    /// Takes the next line.
    pub fn take(&mut self, rt: &impl Print, line: &str) -> io::Result<()> {
        match self.open.take() {
            Some(open) => Ok(self.take_in_file(open, line)?),
            None => self.take_outside(rt, line),
        }
    }

    // Takes a line of a file, or the dot after it.
    fn take_in_file(&mut self, open: Open, line: &str) -> Result<(), AllocError> {
        let Open {
            file: (name, mut bytes),
            cut,
        } = open;
        if line == "." {
            if cut {
                let _ = bytes.pop();
            }
            return self.keep(name, bytes);
        }
        bytes.extend_from_slice(line.as_bytes())?;
        bytes.push(b'\n')?;
        self.open = Some(Open {
            file: (name, bytes),
            cut,
        });
        Ok(())
    }

    // Takes a line outside files.
    fn take_outside(&mut self, rt: &impl Print, line: &str) -> io::Result<()> {
        let line = Line::read(line);
        if let Line::Answer(line) = line {
            return Ok(self.take_answer(line)?);
        }
        self.finish(rt)?;
        match line {
            Line::File(name) => self.begin(name, false)?,
            Line::Cut(name) => self.begin(name, true)?,
            Line::Call(words) => self.expect(words, None)?,
            Line::Filling(words, name) => {
                let to = String::from_str(self.alloc, name)?;
                self.expect(words, Some(to))?
            }
            Line::Comment | Line::Answer(_) => {}
        }
        Ok(())
    }

    // A file begins.
    fn begin(&mut self, name: &str, cut: bool) -> Result<(), AllocError> {
        let name = String::from_str(self.alloc, name)?;
        self.open = Some(Open {
            file: (name, Vec::new(self.alloc)),
            cut,
        });
        Ok(())
    }

    // A call begins.
    fn expect(&mut self, words: &str, to: Option<String>) -> Result<(), AllocError> {
        self.call = Some(Call {
            words: String::from_str(self.alloc, words)?,
            to,
            wanted: String::new(self.alloc),
        });
        Ok(())
    }

    // A line that the call should answer. One without a call is wrong.
    fn take_answer(&mut self, line: &str) -> Result<(), AllocError> {
        match &mut self.call {
            Some(call) => {
                call.wanted.push_str(line)?;
                call.wanted.push('\n')?;
            }
            None => self.wrong = self.wrong.saturating_add(1),
        }
        Ok(())
    }

    // Keeps a file, in the place of one of this name.
    fn keep(&mut self, name: String, bytes: Vec<u8>) -> Result<(), AllocError> {
        for file in &mut self.files {
            if file.0 == name {
                file.1 = bytes;
                return Ok(());
            }
        }
        self.files.push((name, bytes))?;
        Ok(())
    }

    /// Makes the call that was read, and prints what it answers if that isn't what the script says.
    pub fn finish(&mut self, rt: &impl Print) -> io::Result<()> {
        let Some(call) = self.call.take() else {
            return Ok(());
        };
        let Some(answer) = answer_to(self.alloc, &self.files, &call.words)? else {
            return Ok(());
        };
        self.calls = self.calls.saturating_add(1);
        match (call.to, answer.written) {
            (Some(name), Some(text)) => self.keep(name, text)?,
            _ => {
                if answer.lines != call.wanted {
                    self.wrong = self.wrong.saturating_add(1);
                    println!(rt; "$ {}\n{}", call.words, answer.lines)?;
                }
            }
        }
        Ok(())
    }
}
