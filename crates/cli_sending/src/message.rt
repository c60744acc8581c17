//! Sends messages to standard error.
ghost use Rattle.std.specs.Prelude.{IfSome, OnOk};
ghost use Rattle.std.specs.Io.KnownBytes.{Appends};

use std::alloc::{AllocError, Global};
use std::io::Write;
use std::{fmt, io};

/// Sends the lines of a message by one write, so that the lines of several runs do not mix in one log. If there is no
/// memory for them, they are sent in parts.
///
/// # Errors
///
/// The error of the writer.
pub fn send_message<M: fmt::Display, E: Write>(
    alloc: Global,
    message: &M,
    err: &mut E,
) -> io::Result<()>
    ensures { OnOk result (IfSome (M.output message.now) (Appends (E.contents err.old) (E.contents err.new))) }
{
    match format!(in alloc; "{message}") {
        Ok(lines) => err.write_all(lines.as_bytes()),
        Err(AllocError) => write!(err, "{message}"),
    }
}
