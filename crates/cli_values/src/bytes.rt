//! Appends bytes in hexadecimal.
ghost use Rattle.std.specs.Prelude.{◌≡◌, ◌<◌, ◌++◌, false, OnOk, length, string_bytes, take, flat_map};
ghost use Rattle.std.specs.Fmt.{digit_glyph};
ghost use Rattle.table_schema.specs.Tokens.{hexadecimal};
ghost use Rattle.cli_values.specs.Constants.{bytes_text, cut_mark, value_limit};

use std::alloc::AllocError;

/// The number of bytes of a value that are printed.
const VALUE_LIMIT: usize = 1 << 16;

/// The lower-case digit of a number below 16.
fn digit(number: u8) -> char
    requires { number < 16 }
    ensures glyph { result ≡ digit_glyph false number }
    ensures ascii { result < 128 }
{
    if number < 10 {
        char::from(b'0' + number)
    } else {
        char::from(b'a' - 10 + number)
    }
}

/// Appends the two hexadecimal digits of a byte.
#[tactic(auto, using(crate::proofs::ByteLemmas::two_digits))]
fn push_digits(byte: u8, text: &mut String) -> Result<(), AllocError>
    ensures { OnOk result (string_bytes text.new ≡ string_bytes text.old ++ hexadecimal 2 byte) }
{
    text.push(digit(byte / 16))?;
    text.push(digit(byte % 16))?;
    Ok(())
}

/// Appends two hexadecimal digits for each byte.
///
/// # Errors
///
/// Out of memory.
#[tactic(auto, using(crate::proofs::ByteLemmas::items_more))]
pub fn push_hexadecimal(bytes: &[u8], text: &mut String) -> Result<(), AllocError>
    ensures { OnOk result (string_bytes text.new ≡ string_bytes text.old ++ flat_map (hexadecimal 2) bytes.now) }
{
    for byte in bytes {
        push_digits(*byte, text)?;
    }
    Ok(())
}

/// The bytes of a value that are printed.
pub(crate) fn printed(bytes: &[u8]) -> &[u8]
    ensures { result.now ≡ take value_limit bytes.now }
{
    bytes.split_at(bytes.len().min(VALUE_LIMIT)).0
}

/// What marks that not all bytes of a value are printed.
pub(crate) fn cut_mark(bytes: &[u8]) -> &'static str
    ensures { result.now ≡ cut_mark bytes.now }
{
    if bytes.len() > VALUE_LIMIT {
        return "..";
    }
    ""
}

/// Appends the first bytes of a value in hexadecimal, and a mark if there are more.
///
/// # Errors
///
/// Out of memory.
#[tactic(auto, unfolding(crate::specs::Constants::bytes_text))]
pub fn push_value_bytes(bytes: &[u8], text: &mut String) -> Result<(), AllocError>
    ensures { OnOk result (string_bytes text.new ≡ string_bytes text.old ++ bytes_text bytes.now) }
{
    push_hexadecimal(printed(bytes), text)?;
    text.push_str(cut_mark(bytes))
}
