//! The command line program `racelog`: it hands its words, the files of the system and the standard streams to the top
//! call, and ends with its status.
#![tactic(auto)]

use rl_flow::{Refusal, line, run};
use rl_io::{FileShelf, StdSink, put_all};
use std::alloc::AllocError;
use std::env;
use std::io::ErrorKind;
use std::process::ExitCode;

/// The arguments. If one isn't UTF-8, a single empty word, which no command accepts. The error is that of memory that ran out.
fn words(rt: &HostRuntime) -> Result<Vec<String>, AllocError> {
    let alloc = rt.alloc();
    match env::args(rt) {
        Ok(args) => args.skip(1).collect(alloc),
        Err(error) if error.kind() == ErrorKind::OutOfMemory => Err(AllocError),
        Err(_) => {
            let mut words = Vec::new(alloc);
            words.push(String::new(alloc))?;
            Ok(words)
        }
    }
}

fn main(rt: HostRuntime) -> ExitCode {
    let mut shelf = FileShelf::new(&rt);
    let mut out = StdSink::out(&rt);
    let mut err = StdSink::err(&rt);
    let status = match words(&rt) {
        Ok(words) => run(rt.alloc(), words.as_slice(), &mut shelf, &mut out, &mut err),
        Err(_) => {
            let refusal = Refusal::NoMemory;
            let _ = put_all(&mut err, line(refusal).as_bytes());
            refusal.status()
        }
    };
    ExitCode::from(status.code())
}
