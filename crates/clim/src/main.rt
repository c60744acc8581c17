//! The program `clim`: reads, checks and writes .NET metadata. It collects the arguments; [`cli::go_on`] does everything
//! else.
#![tactic(auto)]

use cli::{Terminal, go_on};
use cli_files::refuse_words;
use cli_sending::is_utf8_locale;
use std::process::ExitCode;
use std::{env, io};

fn main(rt: HostRuntime) -> ExitCode {
    let status = match run(&rt) {
        Ok(status) => status,
        Err(error) => refuse_words(rt.alloc(), &error, &mut rt.stderr()),
    };
    ExitCode::from(status)
}

/// Collects the arguments and runs the program on them. An error is always one of the collection.
fn run(rt: &HostRuntime) -> io::Result<u8> {
    let alloc = rt.alloc();
    let words: Vec<String> = env::args(rt)?.collect(alloc)?;
    let words: Vec<&str> = words.iter().map(|word| word.as_str()).collect(alloc)?;
    Ok(go_on(
        rt,
        terminal(rt),
        &words,
        &mut io::writer(rt),
        &mut rt.stderr(),
    ))
}

/// What the terminal reads, by the environment: the first of these variables that is set decides (POSIX).
fn terminal(rt: &HostRuntime) -> Terminal {
    let [all, of_characters, lang] = ["LC_ALL", "LC_CTYPE", "LANG"].map(|name| env::var(
        rt, name,
    ).ok());
    if is_utf8_locale(all.as_deref(), of_characters.as_deref(), lang.as_deref()) {
        Terminal::Utf8
    } else {
        Terminal::Ascii
    }
}
