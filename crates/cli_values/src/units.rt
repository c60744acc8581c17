//! Appends a text of UTF-16 units.
ghost use Rattle.std.specs.Prelude.{◌≡◌, ◌<◌, ◌++◌, IsTrue, OnOk, string_bytes, flat_map};
ghost use Rattle.cli_faults.specs.Escaped.{escaped_unit, is_printable};
ghost use Rattle.heap_entries.specs.UserView.{units_in};
ghost use Rattle.cli_values.specs.Constants.{string_text, unit_text};

use crate::bytes::{cut_mark, printed};
use std::alloc::AllocError;
use std::fmt::Write;

/// Whether a unit is printable ASCII except the backslash.
fn is_printable(unit: u16) -> bool
    ensures value { result ≡ is_printable unit }
    ensures ascii { IsTrue result → unit < 128 }
{
    32 <= unit && unit <= 126 && unit != 92
}

/// Appends a unit, as `\u` and four hexadecimal digits if it is not printable.
fn push_escaped(unit: u16, text: &mut String) -> Result<(), AllocError>
    ensures { OnOk result (string_bytes text.new ≡ string_bytes text.old ++ escaped_unit unit) }
{
    if is_printable(unit) {
        text.push(char::from(unit as u8))?;
        return Ok(());
    }
    write!(text, "\\u{unit:04x}").map_err(|_| AllocError)
}

/// Appends a unit of a text between quotes.
fn push_unit(unit: u16, text: &mut String) -> Result<(), AllocError>
    ensures { OnOk result (string_bytes text.new ≡ string_bytes text.old ++ unit_text unit) }
{
    if unit == u16::from(b'"') {
        return text.push_str("\\\"");
    }
    push_escaped(unit, text)
}

/// Appends the units in pairs of bytes.
#[tactic(auto, using(crate::proofs::ByteLemmas::units_none))]
fn push_units(bytes: &[u8], text: &mut String) -> Result<(), AllocError>
    ensures { OnOk result (string_bytes text.new ≡ string_bytes text.old ++ flat_map unit_text (units_in bytes.now)) }
{
    let mut left = bytes;
    while let [low, high, later @ ..] = left {
        push_unit(*low as u16 + 0x100 * *high as u16, text)?;
        left = later;
    }
    Ok(())
}

/// Appends the text in the bytes of a value, in quotes.
#[tactic(auto, unfolding(crate::specs::Constants::string_text))]
pub(crate) fn push_string(bytes: &[u8], text: &mut String) -> Result<(), AllocError>
    ensures { OnOk result (string_bytes text.new ≡ string_bytes text.old ++ string_text bytes.now) }
{
    text.push_str("\"")?;
    push_units(printed(bytes), text)?;
    text.push_str(cut_mark(bytes))?;
    text.push_str("\"")
}
