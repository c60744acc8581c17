//! What the user may have meant.
ghost use Rattle.std.specs.Prelude.{◌≡◌, Some};
ghost use Rattle.cli_files.specs.Hints.{hint_for, hint_for_fault, hint_text, signature_of};

use crate::opened::Input;
use cli_faults::{Failure, Stop};
use packed::{Fault, FaultCode};
use std::fmt;

/// What the user may have meant. `Display` gives a line for standard error, without the line feed.
#[derive(Clone, Copy)]
pub enum Hint {
    /// The file looks like a metadata root, so `--bare` is missing.
    AddBare,
    /// The file looks like a PE file, so `--bare` is wrong.
    DropBare,
    /// The offset is past the end of the file, which has this number of bytes.
    Length(usize),
}

impl fmt::Display for Hint {
    ghost output = { λ hint. Some (hint_text hint) };

    fn fmt<W: fmt::Write>(&self, f: &mut fmt::Formatter<W>) -> fmt::Result {
        match self {
            Hint::AddBare => {
                f.write_str("  hint: FILE begins like a metadata root; try it with '--bare'")
            }
            Hint::DropBare => {
                f.write_str("  hint: FILE begins like a PE file; try it without '--bare'")
            }
            Hint::Length(length) => write!(f, "  hint: FILE has {length} bytes"),
        }
    }
}

/// The hint for a stop on some bytes, if there is one. For an offset past the end of the file it is the length of the file.
pub(crate) fn hint_of(stop: &Stop<'_>, input: Input, bytes: &[u8]) -> Option<Hint>
    ensures { result ≡ hint_for input bytes.now stop.now }
{
    match stop {
        Stop::Failed(Failure::Fault(fault)) => hint_of_fault(fault, input, bytes),
        Stop::NothingAt(offset) => {
            (bytes.len() as u64 <= *offset).then_some(Hint::Length(bytes.len()))
        }
        _ => None,
    }
}

/// The hint for a fault in some bytes, if there is one.
fn hint_of_fault(fault: &Fault, input: Input, bytes: &[u8]) -> Option<Hint>
    ensures { result ≡ hint_for_fault input bytes.now fault.now.code }
{
    let (expected, found, hint) = match input {
        Input::BareRoot => (FaultCode::RootSignature, Input::File, Hint::DropBare),
        Input::File => (FaultCode::DosHeader, Input::BareRoot, Hint::AddBare),
    };
    (fault.code == expected.number() && bytes.starts_with(signature_of(found))).then_some(hint)
}

/// The first bytes of a file of this kind (II.25.2.1, II.24.2.1).
pub fn signature_of(input: Input) -> &'static [u8]
    ensures { result.now ≡ signature_of input }
{
    match input {
        Input::File => b"MZ".as_slice(),
        Input::BareRoot => b"BSJB".as_slice(),
    }
}
