//! Checks a file, and nothing else of the program.
ghost use Rattle.std.specs.Prelude.{◌≡◌, ◌≤◌, IfErr, map};
ghost use Rattle.std.specs.Option.{option_map};
ghost use Rattle.cli_faults.specs.Status.{IsOutput};
ghost use Rattle.cli_files.specs.Checks.{IsCheckOfBytes, IsCheckOfFile, IsRunOf, file_in, is_option, ok_line};
ghost use Rattle.cli_files.specs.Stopped.{status_of_outcome};
ghost use Rattle.cli_sending.specs.Sent.{Sent};

use crate::input::read_into;
use crate::opened::{Input as Given, open};
use crate::stopped::{Stopped, status};
use cli_faults::{Failure, OK, Stop, printed};
use cli_sending::finish;
use std::alloc::{AllocError, Global};
use std::io::Write;
use std::rt::Files;

/// Checks a file, and returns the exit code:
///
/// - 0: it breaks no rule, and the line `ok` went to `out`;
/// - 1: it breaks a rule; the fault of the first one is reported to `err`;
/// - 3: it cannot be read, the output cannot be written, or memory ran out; that is reported to `err`.
pub fn check_one<R: Files + Input + AllocGlobal, W: Write, E: Write>(
    rt: &R,
    file: &str,
    out: &mut W,
    err: &mut E,
) -> u8
    ensures limit { result ≤ 3 }
    ensures checked { IsCheckOfFile W.contents out.old out.new R.File.remaining R.Reader.remaining file.now result }
    ensures quiet { result ≡ 0 → err.new ≡ err.old }
{
    let alloc = rt.alloc();
    let mut bytes = Vec::new(alloc);
    match read_into(rt, file, &mut bytes) {
        Ok(()) => {
            let outcome = check_bytes(alloc, bytes.as_slice(), out);
            status(alloc, outcome, err)
        }
        Err(failure) => status(alloc, Err(Stopped::from(failure)), err),
    }
}

/// Checks the bytes of a file, and prints `ok` if they break no rule.
fn check_bytes<'a, W: Write>(alloc: Global, bytes: &[u8], out: &mut W) -> Result<(), Stopped<'a>>
    ensures { IsCheckOfBytes W.contents out.old out.new bytes.now (status_of_outcome result) }
{
    match open(bytes, Given::File) {
        Ok(_) => match print_ok(alloc, out) {
            Ok(()) => Ok(()),
            Err(failure) => Err(Stopped::from(failure)),
        },
        Err(fault) => {
            let stop = Stop::Failed(Failure::Fault(fault));
            Err(Stopped::at(stop, None, Given::File, bytes))
        }
    }
}

/// Prints the line `ok`, by one write.
fn print_ok<'a, W: Write>(alloc: Global, out: &mut W) -> Result<(), Failure<'a>>
    ensures sent { Sent (W.contents out.old) (W.contents out.new) result ok_line }
    ensures failed { IfErr result IsOutput }
{
    match format!(in alloc; "{OK}\n") {
        Ok(line) => printed(finish(line.as_bytes(), out)),
        Err(AllocError) => Err(Failure::OutOfMemory),
    }
}

/// The subcommand whose file is checked.
const CHECK: &str = "check";

/// Runs the program on its arguments, the program name first, and returns the exit code: that of [`check_one`] for the
/// arguments `check FILE`, and 2 for others. FILE is a path, or `-` for the standard input.
pub fn go<R: Files + Input + AllocGlobal, W: Write, E: Write>(
    rt: &R,
    words: &[&str],
    out: &mut W,
    err: &mut E,
) -> u8
    ensures limit { result ≤ 3 }
    ensures run { IsRunOf W.contents out.old out.new R.File.remaining R.Reader.remaining (map (λ word. word.now) words.now) result }
    ensures quiet { result ≡ 0 → err.new ≡ err.old }
{
    match file_in(words) {
        Some(file) => check_one(rt, file, out, err),
        None => {
            let _ = err.write_all(
                b"usage: clim_check check FILE, where '-' is the standard input\n",
            );
            2
        }
    }
}

/// The file that these arguments ask to check, if they ask for that alone.
fn file_in<'a>(words: &[&'a str]) -> Option<&'a str>
    ensures { option_map (λ file. file.now) result ≡ file_in (map (λ word. word.now) words.now) }
{
    match words {
        [_, subcommand, file] if *subcommand == CHECK && !is_option(file) => Some(file),
        _ => None,
    }
}

/// Whether an argument is an option: it begins with a dash, and is not the dash alone, which is the standard input.
fn is_option(word: &str) -> bool
    ensures { result ≡ is_option word.now }
{
    word.len() > 1 && word.starts_with('-')
}
