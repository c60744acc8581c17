//! Texts of strangers, escaped as printable ASCII.
ghost use Rattle.std.specs.Prelude.{◌≡◌, ◌<◌, IsTrue, Some};
ghost use Rattle.std.specs.Fmt.{WritesOnOk};
ghost use Rattle.cli_faults.specs.Escaped.{escaped_byte, escaped_text, is_plain};

use std::fmt;

/// A text as the program prints it: printable ASCII except `"` and `\` as it is, and any other byte as `\x` and two
/// hexadecimal digits. So no text from a file or from the command line can move the cursor or begin a line of its own.
#[derive(Clone, Copy)]
pub struct Escaped<'a>(pub &'a str);

impl fmt::Display for Escaped<'_> {
    ghost output = { λ text. Some (escaped_text text.0.now) };

    fn fmt<W: fmt::Write>(&self, f: &mut fmt::Formatter<W>) -> fmt::Result {
        write_bytes(self.0.as_bytes(), f)
    }
}

/// Bytes that may be no text, such as the name of a file, as the program prints them: like an [`Escaped`] text.
#[derive(Clone, Copy)]
pub struct EscapedBytes<'a>(pub &'a [u8]);

impl fmt::Display for EscapedBytes<'_> {
    ghost output = { λ bytes. Some (escaped_text bytes.0.now) };

    fn fmt<W: fmt::Write>(&self, f: &mut fmt::Formatter<W>) -> fmt::Result {
        write_bytes(self.0, f)
    }
}

/// Whether a byte is printable ASCII except `"` and `\`.
fn is_plain(byte: u8) -> bool
    ensures value { result ≡ is_plain byte }
    ensures ascii { IsTrue result → byte < 128 }
{
    32 <= byte && byte <= 126 && byte != b'\\' && byte != b'"'
}

/// Writes the bytes of a text, each escaped if needed.
fn write_bytes<W: fmt::Write>(bytes: &[u8], f: &mut fmt::Formatter<W>) -> fmt::Result
    ensures { WritesOnOk W.write_str_gives f.old result (escaped_text bytes.now) f.new }
{
    for byte in bytes {
        write_byte(*byte, f)?;
    }
    Ok(())
}

/// Writes a byte of a text, escaped if needed.
fn write_byte<W: fmt::Write>(byte: u8, f: &mut fmt::Formatter<W>) -> fmt::Result
    ensures { WritesOnOk W.write_str_gives f.old result (escaped_byte byte) f.new }
{
    if is_plain(byte) {
        f.write_char(char::from(byte))
    } else {
        write!(f, "\\x{byte:02x}")
    }
}
