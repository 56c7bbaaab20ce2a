//! Tests of the top call by scripts of files, calls and answers. For each script that is named on the command line it prints how many
//! calls answered what the script says, and each other call with what it answered.
#![tactic(auto)]

mod answer;
mod line;
mod script;

use script::Script;
use std::alloc::Global;
use std::{env, fs, io};

/// Makes the calls of a script.
fn try_script(rt: &HostRuntime, alloc: Global, name: &str) -> io::Result<()> {
    let text = fs::read_to_string(rt, name)?;
    let mut script = Script::new(alloc);
    for line in text.lines() {
        script.take(rt, line)?;
    }
    script.finish(rt)?;
    println!(rt; "{name}: {} calls, {} wrong", script.calls, script.wrong)
}

fn main(rt: HostRuntime) -> io::Result<()> {
    let alloc = rt.alloc();
    let Ok(names) = env::args(&rt) else {
        return Ok(());
    };
    for name in names.skip(1) {
        try_script(&rt, alloc, &name)?;
    }
    Ok(())
}
