//! The program `clim_check`: `clim check FILE`, and nothing else of `clim`. It collects the arguments; [`cli_files::go`] does
//! everything else.
#![tactic(auto)]

use cli_files::{go, refuse_words};
use std::process::ExitCode;
use std::{env, io};

fn main(rt: HostRuntime) -> ExitCode {
    let status = match run(&rt) {
        Ok(status) => status,
        Err(error) => refuse_words(rt.alloc(), &error, &mut rt.stderr()),
    };
    ExitCode::from(status)
}

/// Collects the arguments and runs the program on them. An error is always one of the collection.
fn run(rt: &HostRuntime) -> io::Result<u8> {
    let alloc = rt.alloc();
    let words: Vec<String> = env::args(rt)?.collect(alloc)?;
    let words: Vec<&str> = words.iter().map(|word| word.as_str()).collect(alloc)?;
    Ok(go(rt, &words, &mut io::writer(rt), &mut rt.stderr()))
}
