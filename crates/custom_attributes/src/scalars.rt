//! Values of one element.
ghost use Rattle.std.specs.Prelude.{◌≡◌, ◌==◌, OnOk, codes, if◌then◌else◌, option_map};
ghost use Rattle.std.specs.Fmt.{WritesInCalls};
ghost use Rattle.blob_values.specs.Values.{element_type, scalar_type};
ghost use Rattle.blob_values.specs.Views.{element_view, scalar_view};
ghost use Rattle.custom_attributes.specs.Texts.{content_text, element_argument, entry_text, number_text, scalar_text, signed_text, string_text};

use crate::words::type_word;
use blob_values::{Element, ElementType, Scalar, Value};
use full_names::{Limit, write_quoted, write_text};
use std::fmt;

/// Half the number of values of a signed number of 1, 2, 4 and 8 bytes.
const HALF_I1: u64 = 1 << 7;

const HALF_I2: u64 = 1 << 15;

const HALF_I4: u64 = 1 << 31;

const HALF_I8: u64 = 1 << 63;

/// Writes a signed number that has these bytes. Those from `half` on are negative.
fn write_signed<W: fmt::Write>(out: &mut W, number: u64, half: u64) -> fmt::Result
    ensures { OnOk result (WritesInCalls W.write_str_gives out.old (signed_text half number) out.new) }
{
    if number < half {
        return write!(out, "{number}");
    }
    let size = half.saturating_sub(number - half);
    write!(out, "-{size}")
}

/// Writes a truth value.
fn write_truth<W: fmt::Write>(out: &mut W, number: u64) -> fmt::Result
    ensures { OnOk result (WritesInCalls W.write_str_gives out.old (if number == 0 then codes "false" else codes "true") out.new) }
{
    if number == 0 {
        write_text(out, "false")
    } else {
        write_text(out, "true")
    }
}

/// Writes a truth value, a character or a number that has these bytes.
#[tactic(auto, unfolding(crate::specs::Texts::number_text))]
fn write_number<W: fmt::Write>(out: &mut W, of: Element, number: u64) -> fmt::Result
    ensures { OnOk result (WritesInCalls W.write_str_gives out.old (number_text of number) out.new) }
{
    match of {
        Element::Boolean => write_truth(out, number),
        Element::I1 => write_signed(out, number, HALF_I1),
        Element::I2 => write_signed(out, number, HALF_I2),
        Element::I4 => write_signed(out, number, HALF_I4),
        Element::I8 => write_signed(out, number, HALF_I8),
        Element::R4 => write!(out, "0x{number:08x}"),
        Element::R8 => write!(out, "0x{number:016x}"),
        _ => write!(out, "{number}"),
    }
}

/// Writes a string or the name of a type, in quotes unless it is null.
fn write_string<W: fmt::Write, L: Limit<W>>(
    out: &mut W,
    text: Option<&str>,
    limit: &L,
) -> fmt::Result
    ensures { OnOk result (WritesInCalls W.write_str_gives out.old (string_text (option_map (λ of. of.now) text.entry)) out.new) }
{
    match text {
        Some(text) => {
            write!(out, "\"")?;
            write_quoted(out, text, limit)?;
            write!(out, "\"")
        }
        None => write!(out, "nullref"),
    }
}

/// Writes a value without its type.
fn write_content<W: fmt::Write, L: Limit<W>>(
    out: &mut W,
    value: Scalar<'_>,
    limit: &L,
) -> fmt::Result
    ensures { OnOk result (WritesInCalls W.write_str_gives out.old (content_text (scalar_view value.entry)) out.new) }
{
    match value {
        Scalar::Number(of, number) => write_number(out, of, number),
        Scalar::String(text) => write_string(out, text, limit),
        Scalar::SystemType(name) => write_string(out, name, limit),
    }
}

/// The type of a value.
fn scalar_type(value: Scalar<'_>) -> ElementType
    ensures { result ≡ scalar_type (scalar_view value.entry) }
{
    match value {
        Scalar::Number(of, _) => ElementType::Simple(of),
        Scalar::String(_) => ElementType::Simple(Element::String),
        Scalar::SystemType(_) => ElementType::SystemType,
    }
}

/// Writes a value after its type.
fn write_scalar<W: fmt::Write, L: Limit<W>>(
    out: &mut W,
    value: Scalar<'_>,
    limit: &L,
) -> fmt::Result
    ensures { OnOk result (WritesInCalls W.write_str_gives out.old (scalar_text (scalar_view value.entry)) out.new) }
{
    write_text(out, type_word(scalar_type(value)))?;
    write!(out, "(")?;
    write_content(out, value, limit)?;
    write!(out, ")")
}

/// Writes an argument of one element. An object boxes a value.
pub(crate) fn write_element<W: fmt::Write, L: Limit<W>>(
    out: &mut W,
    value: Value<'_>,
    limit: &L,
) -> fmt::Result
    ensures { OnOk result (WritesInCalls W.write_str_gives out.old (element_argument (element_view value.entry)) out.new) }
{
    match value {
        Value::Plain(value) => write_scalar(out, value, limit),
        Value::Boxed(value) => {
            write!(out, "object(")?;
            write_scalar(out, value, limit)?;
            write!(out, ")")
        }
    }
}

/// Writes an element of an array, whose type precedes all elements.
pub(crate) fn write_entry<W: fmt::Write, L: Limit<W>>(
    out: &mut W,
    value: Value<'_>,
    limit: &L,
) -> fmt::Result
    ensures { OnOk result (WritesInCalls W.write_str_gives out.old (entry_text (element_view value.entry)) out.new) }
{
    match value {
        Value::Plain(value) => write_content(out, value, limit),
        Value::Boxed(value) => write_scalar(out, value, limit),
    }
}

/// The type of an element.
pub(crate) fn element_type(value: Value<'_>) -> ElementType
    ensures { result ≡ element_type (element_view value.entry) }
{
    match value {
        Value::Plain(value) => scalar_type(value),
        Value::Boxed(_) => ElementType::Simple(Element::Object),
    }
}
