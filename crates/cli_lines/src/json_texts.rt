//! Appends texts of JSON to a line.
ghost use Rattle.std.specs.Prelude.{◌≡◌, ◌++◌, ◌∷◌, [], IsTrue, OnOk};
ghost use Rattle.json.specs.Print.{escape, escape_byte, print, quoted};
ghost use Rattle.json.specs.Run.{is_plain};
ghost use Rattle.cli_lines.specs.Lines as shown;
ghost use Rattle.cli_lines.specs.Lines.{value_text, value_tokens};
ghost use Rattle.cli_lines.specs.Shown.{shown_value};

use crate::line::push_text_value;
use crate::parts::Value;
use crate::texts::{Pushed, push_between, push_hexadecimal};

/// Whether a byte stands for itself in a string (RFC 8259, section 7): it is no quote, backslash or control character.
fn is_plain(byte: u8) -> bool
    ensures { result ≡ is_plain byte }
{
    byte >= 0x20 && byte != b'"' && byte != b'\\'
}

/// Whether all bytes stand for themselves. It reads all of them, many at a time.
#[tactic(auto, using(std::proofs::lemmas::Grind::common_steps, json::proofs::Printed::Strings::escape_byte_plain))]
fn are_plain(text: &[u8]) -> bool
    ensures { IsTrue result → escape text.now ≡ text.now }
{
    let mut all = true;
    for byte in text {
        all &= is_plain(*byte);
    }
    all
}

/// Appends a byte of a string, escaped if needed.
#[tactic(auto, using(std::proofs::lemmas::Grind::common_steps, crate::proofs::PlainLemmas::long_escape, json::proofs::Printed::Strings::escape_byte_plain), unfolding(json::specs::Print::escape_byte))]
fn push_byte(byte: u8, line: &mut Vec<u8>) -> Pushed
    ensures { OnOk result (line.new.items ≡ line.old.items ++ escape_byte byte) }
{
    match byte {
        b'"' | b'\\' => line.extend_from_slice(&[b'\\', byte]),
        0x08 => line.extend_from_slice(b"\\b"),
        0x0C => line.extend_from_slice(b"\\f"),
        b'\n' => line.extend_from_slice(b"\\n"),
        b'\r' => line.extend_from_slice(b"\\r"),
        b'\t' => line.extend_from_slice(b"\\t"),
        0..0x20 => {
            line.extend_from_slice(b"\\u00")?;
            push_hexadecimal(&[byte], line)
        }
        _ => Ok(line.push(byte)?),
    }
}

/// Appends the content of a string, with quotes, backslashes and control characters escaped (RFC 8259, section 7).
pub(crate) fn push_escaped(text: &[u8], line: &mut Vec<u8>) -> Pushed
    ensures { OnOk result (line.new.items ≡ line.old.items ++ escape text.now) }
{
    if are_plain(text) {
        return line.extend_from_slice(text);
    }
    for byte in text {
        push_byte(*byte, line)?;
    }
    Ok(())
}

/// Appends a string, with its quotes.
pub(crate) fn push_string(text: &[u8], line: &mut Vec<u8>) -> Pushed
    ensures { OnOk result (line.new.items ≡ line.old.items ++ quoted text.now) }
{
    line.push(b'"')?;
    push_escaped(text, line)?;
    Ok(line.push(b'"')?)
}

/// Appends as a string what a value is in a line of text: digits, which stand for themselves.
pub(crate) fn push_digit_string(value: &Value<'_>, line: &mut Vec<u8>) -> Pushed
    ensures { OnOk result (line.new.items ≡ line.old.items ++ 34 ∷ (value_text (shown_value value.now) ++ 34 ∷ [])) }
{
    line.push(b'"')?;
    push_text_value(value, line)?;
    Ok(line.push(b'"')?)
}

/// Appends an object of the bytes and the text of a signature.
#[tactic(auto, using(std::proofs::lemmas::Grind::common_steps, crate::proofs::PlainLemmas::bytes_are_plain), unfolding(json::specs::Print::print_from, json::specs::Print::escape_byte))]
pub(crate) fn push_signature(blob: &[u8], text: &[u8], line: &mut Vec<u8>) -> Pushed
    ensures { OnOk result (line.new.items ≡ line.old.items ++ print (value_tokens (shown.signature blob.now text.now))) }
{
    line.extend_from_slice(b"{\"blob\":")?;
    push_between(b'"', blob, b'"', line)?;
    line.extend_from_slice(b",\"text\":")?;
    push_string(text, line)?;
    Ok(line.push(b'}')?)
}
