//! `clim digest`: the digest of a file.
ghost use Rattle.std.specs.Prelude.{◌∷◌, []};
ghost use Rattle.cli_lines.specs.Printed.{Prints};
ghost use Rattle.cli_print.specs.DigestLines.{digest_line};
ghost use Rattle.hex.specs.Hex.{encode_lower};

use cli_lines::Part::{Field, Word};
use cli_lines::Value::{Plain, Text};
use cli_lines::{Name, Printer};
use std::alloc::Global;
use std::io::Write;

/// Prints the line of a digest, as `sha256sum` prints it: its hexadecimal digits, two spaces and the path of the file.
pub fn print_digest<W: Write>(
    alloc: Global,
    digest: &[u8; 32],
    file: &str,
    out: &mut Printer<'_, W>,
)
    ensures { Prints out.old out.new (digest_line (encode_lower digest.now) file.now ∷ []) }
{
    match hex::encode(alloc, *digest) {
        Ok(digits) => print_digits(&digits, file, out),
        Err(_) => out.fail(),
    }
}

/// Prints the line of a digest with these digits.
#[tactic(auto, unfolding(crate::specs::DigestLines::digest_line))]
fn print_digits<'a, W: Write>(digits: &'a str, file: &'a str, out: &mut Printer<'_, W>)
    ensures { Prints out.old out.new (digest_line digits.now file.now ∷ []) }
{
    out.line(&[
        Field(Name::Digest, Plain(digits)),
        Word("  "),
        Field(Name::File, Text(file)),
    ]);
}
