//! Why a run stopped early, what the user may have meant, and what was not read.
ghost use Rattle.std.specs.Prelude.{◌≡◌, ◌≢◌, ◌≤◌, IfErr, IfOk, None, Some};
ghost use Rattle.std.specs.Fmt.{WritesOnOk};
ghost use Rattle.std.specs.IoError.{error_kind};
ghost use Rattle.std.specs.declared.io.ErrorKind.TheVariants as cause;
ghost use Rattle.cli_files.specs.Stopped.{file_line, hint_line, is_silent, status_of_outcome, stop_line, stopped_text};
ghost use Rattle.cli_faults.specs.Stops.{status_of_stop};
ghost use Rattle.cli_faults.specs.declared.stop.Stop.TheVariants.{Failed};

use crate::hint::{Hint, hint_of};
use crate::opened::Input;
use cli_faults::{Escaped, Failure, Reason, Stop};
use cli_sending::send_message;
use std::alloc::Global;
use std::fmt;
use std::io::{self, Write};

/// Why a run stopped early, and what the user may have meant. `Display` gives the lines for standard error: that of the
/// stop, unless standard output says why it stopped or nobody reads it, then that of the file, then that of the hint.
#[derive(Clone, Copy)]
pub struct Stopped<'a> {
    /// Why it stopped.
    pub stop: Stop<'a>,
    /// The file that the failure is about, if several are read and the line of the stop does not name it.
    pub file: Option<&'a str>,
    /// What the user may have meant.
    pub hint: Option<Hint>,
}

impl<'a> Stopped<'a> {
    ghost use Rattle.std.specs.Prelude.{◌≡◌};
    ghost use Rattle.cli_files.specs.Hints.{hint_for};

    /// A stop at some bytes, with a hint if there is one. The report of it names the file, if there is a name.
    pub fn at(stop: Stop<'a>, file: Option<&'a str>, input: Input, bytes: &[u8]) -> Stopped<'a>
        ensures stop { result.stop ≡ stop.entry }
        ensures file { result.file ≡ file.entry }
        ensures hint { result.hint ≡ hint_for input bytes.now stop.entry }
    {
        Stopped {
            stop,
            file,
            hint: hint_of(&stop, input, bytes),
        }
    }
}

/// The exit code of a run. If the program stopped early, it reports that first.
pub fn status<E: Write>(alloc: Global, outcome: Result<(), Stopped<'_>>, err: &mut E) -> u8
    ensures done { IfOk outcome.entry (λ _. result ≡ 0) }
    ensures stopped { IfErr outcome.entry (λ stopped. result ≡ status_of_stop stopped.stop) }
    ensures status { result ≡ status_of_outcome outcome.entry }
    ensures limit { result ≤ 3 }
    ensures quiet { result ≡ 0 → err.new ≡ err.old }
{
    match outcome {
        Ok(()) => 0,
        Err(stopped) => {
            // A report that cannot be written changes nothing.
            let _ = send_message(alloc, &stopped, err);
            stopped.stop.status()
        }
    }
}

/// Reports that memory ran out, and returns the exit code for that.
pub fn out_of_memory<E: Write>(alloc: Global, err: &mut E) -> u8
    ensures { result ≡ 3 }
{
    status(alloc, Err(Stopped::from(Failure::OutOfMemory)), err)
}

/// Reports why the arguments could not be collected, and returns the exit code: 2 if one is not UTF-8, 3 if out of
/// memory.
pub fn refuse_words<E: Write>(alloc: Global, error: &io::Error, err: &mut E) -> u8
    ensures memory { error_kind error.now ≡ cause.OutOfMemory → result ≡ 3 }
    ensures words { error_kind error.now ≢ cause.OutOfMemory → result ≡ 2 }
{
    if error.kind() == io::ErrorKind::OutOfMemory {
        return out_of_memory(alloc, err);
    }
    let _ = err.write_all(b"error: an argument is not UTF-8\n");
    2
}

/// Whether nothing is reported: the output says why the run stopped, or nobody reads it.
fn is_silent(stop: &Stop<'_>) -> bool
    ensures { result ≡ is_silent stop.now }
{
    matches!(
        stop,
        Stop::Different
            | Stop::NothingAt(_)
            | Stop::Broken
            | Stop::Failed(Failure::CannotWriteOutput(Reason::ClosedPipe))
    )
}

impl<'a> From<Stop<'a>> for Stopped<'a> {
    ghost from_gives = { λ stop stopped. (stopped.stop ≡ stop) × (stopped.hint ≡ None) };

    fn from(stop: Stop<'a>) -> Self {
        Stopped {
            stop,
            file: None,
            hint: None,
        }
    }
}

impl<'a> From<Failure<'a>> for Stopped<'a> {
    ghost from_gives = { λ failure stopped. (stopped.stop ≡ Failed failure) × (stopped.hint ≡ None) };

    fn from(failure: Failure<'a>) -> Self {
        Stopped::from(Stop::Failed(failure))
    }
}

impl fmt::Display for Stopped<'_> {
    ghost output = { λ stopped. Some (stopped_text stopped) };

    fn fmt<W: fmt::Write>(&self, f: &mut fmt::Formatter<W>) -> fmt::Result {
        write_stop(&self.stop, f)?;
        write_file(self.file, f)?;
        write_hint(self.hint, f)
    }
}

/// Writes the line of a stop, if it is reported.
fn write_stop<W: fmt::Write>(stop: &Stop<'_>, f: &mut fmt::Formatter<W>) -> fmt::Result
    ensures { WritesOnOk W.write_str_gives f.old result (stop_line stop.now) f.new }
{
    if is_silent(stop) {
        return Ok(());
    }
    write!(f, "{stop}\n")
}

/// Writes the line with the name of a file, if there is one.
fn write_file<W: fmt::Write>(file: Option<&str>, f: &mut fmt::Formatter<W>) -> fmt::Result
    ensures { WritesOnOk W.write_str_gives f.old result (file_line file.entry) f.new }
{
    match file {
        Some(file) => write!(f, "  file: {}\n", Escaped(file)),
        None => Ok(()),
    }
}

/// Writes the line of a hint, if there is one.
fn write_hint<W: fmt::Write>(hint: Option<Hint>, f: &mut fmt::Formatter<W>) -> fmt::Result
    ensures { WritesOnOk W.write_str_gives f.old result (hint_line hint) f.new }
{
    match hint {
        Some(hint) => write!(f, "{hint}\n"),
        None => Ok(()),
    }
}

/// What was not read, and why. `Display` gives the lines for standard error.
#[derive(Clone, Copy)]
pub enum Unread<'a> {
    /// The standard input, which was read before.
    InputAgain,
    /// What has this path in a directory is neither a file, a directory nor a link.
    Special(&'a str),
    /// This many files in directories, which do not begin like files of this kind.
    Others(u64, Input),
}

impl fmt::Display for Unread<'_> {
    fn fmt<W: fmt::Write>(&self, f: &mut fmt::Formatter<W>) -> fmt::Result {
        match self {
            Unread::InputAgain => {
                f.write_str("error: cannot read -\n  reason: the standard input was read already\n")
            }
            Unread::Special(path) => write!(
                f,
                "error: cannot read {}\n  reason: neither a file nor a directory\n",
                Escaped(path)
            ),
            Unread::Others(1, Input::File) => f.write_str("1 file was not a PE file\n"),
            Unread::Others(count, Input::File) => write!(f, "{count} files were not PE files\n"),
            Unread::Others(1, Input::BareRoot) => f.write_str("1 file was not a metadata root\n"),
            Unread::Others(count, Input::BareRoot) => {
                write!(f, "{count} files were not metadata roots\n")
            }
        }
    }
}

/// Reports that something was not read, and returns the exit code for that.
pub fn refuse<E: Write>(alloc: Global, what: Unread<'_>, err: &mut E) -> u8
    ensures { result ≡ 3 }
{
    // A report that cannot be written changes nothing.
    let _ = send_message(alloc, &what, err);
    3
}
