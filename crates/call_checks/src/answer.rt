//! What the top call answers, as a script writes it.
use rl_flow::{Status, run};
use rl_io::{MemShelf, MemSink, are_distinct};
use std::alloc::{AllocError, Global};

/// The most bytes that a call may write.
const ROOM: usize = 1_048_576;

/// A file of a script: its name and its bytes.
pub type File = (String, Vec<u8>);

/// What a call wrote, where it ended with status 0, and how it is written in a script.
#[derive(Drop)]
pub struct Answer {
    pub written: Option<Vec<u8>>,
    pub lines: String,
}

/// The words of a call. Two quotes are an empty word.
fn words_of(alloc: Global, line: &str) -> Result<Vec<String>, AllocError> {
    let mut words = Vec::new(alloc);
    for word in line.split(' ') {
        let word = if word == "''" { "" } else { word };
        words.push(String::from_str(alloc, word)?)?;
    }
    Ok(words)
}

/// Copies of files.
fn copies_of(alloc: Global, files: &[File]) -> Result<Vec<File>, AllocError> {
    let mut copies = Vec::new(alloc);
    for (name, bytes) in files {
        copies.push((String::from_str(alloc, name)?, bytes.to_vec(alloc)?))?;
    }
    Ok(copies)
}

/// An empty sink.
fn sink(alloc: Global) -> Result<MemSink, AllocError> {
    MemSink::new(alloc, ROOM, 4096, Vec::new(alloc)).map_err(|_| AllocError)
}

/// Calls `run` with these words, on a shelf of these files. `None` if two files have one name.
pub fn answer_to(alloc: Global, files: &[File], line: &str) -> Result<Option<Answer>, AllocError> {
    let files = copies_of(alloc, files)?;
    if !are_distinct(&files) {
        return Ok(None);
    }
    let mut shelf = MemShelf::new(files, 4096, Vec::new(alloc));
    let mut out = sink(alloc)?;
    let mut err = sink(alloc)?;
    let words = words_of(alloc, line)?;
    let status = run(alloc, &words, &mut shelf, &mut out, &mut err);
    let lines = lines_of(alloc, status, out.written(), err.written())?;
    let written = match status {
        Status::Done => Some(out.written().to_vec(alloc)?),
        _ => None,
    };
    Ok(Some(Answer { written, lines }))
}

/// What is written to the output, and then the status in brackets and what is written to the error stream, if there is such.
fn lines_of(alloc: Global, status: Status, out: &[u8], err: &[u8]) -> Result<String, AllocError> {
    let mut lines = String::from_utf8_lossy(alloc, out)?;
    if status != Status::Done || !err.is_empty() {
        lines.push_str(&format!(in alloc; "[{}]", status.code())?)?;
        if err.is_empty() {
            lines.push('\n')?;
        } else {
            lines.push(' ')?;
            lines.push_str(&String::from_utf8_lossy(alloc, err)?)?;
        }
    }
    Ok(lines)
}
