//! The text of marshalling descriptors (II.7.4, II.23.4).
ghost use Rattle.std.specs.Prelude.{◌≡◌, ◌++◌, OnOk, option_map};
ghost use Rattle.std.specs.Fmt.{WritesInCalls};
ghost use Rattle.table_schema.specs.Tokens.{hexadecimal};
ghost use Rattle.blob_values.specs.DescriptorViews.{custom_view, view};
ghost use Rattle.declarations.specs.Declarations.{after_space, before_space, marshalled};
ghost use Rattle.declarations.specs.Descriptors.{bytes_text, content_text, custom_text, descriptor_in, descriptor_text, element_word, fixed_text, library_text, marshal_text, quoted_text, safe_text, size_text, sum_text, type_after, variant_text};

use blob_values::{ArraySize, Custom, Descriptor, Native, read_descriptor, variant_word};
use full_names::{Limit, write_quoted, write_text};
use std::fmt;

/// The largest blob that is decoded, in bytes.
const LIMIT: usize = 1 << 16;

/// The word for the type of elements; empty if it is unknown.
fn element_word(of: Option<Native>) -> &'static str
    ensures { result.now ≡ element_word of }
{
    match of {
        Some(of) => of.word(),
        None => "",
    }
}

/// Writes a number of elements, and the parameter with the number that is added.
fn write_sum<W: fmt::Write>(out: &mut W, count: u32, param: Option<u32>) -> fmt::Result
    ensures { OnOk result (WritesInCalls W.write_str_gives out.old (sum_text count param) out.new) }
{
    match param {
        Some(param) => write!(out, "[{count} + {param}]"),
        None => write!(out, "[{count}]"),
    }
}

/// Writes the number of elements of an array.
fn write_size<W: fmt::Write>(out: &mut W, size: ArraySize) -> fmt::Result
    ensures { OnOk result (WritesInCalls W.write_str_gives out.old (size_text size) out.new) }
{
    match size {
        ArraySize::Unknown => write!(out, "[]"),
        ArraySize::Param(param) => write!(out, "[+ {param}]"),
        ArraySize::ParamAndCount(0, count) => write_sum(out, count, None),
        ArraySize::ParamAndCount(param, count) => write_sum(out, count, Some(param)),
        ArraySize::WithFlags(param, count, flags) if flags % 2 == 1 => {
            write_sum(out, count, Some(param))
        }
        ArraySize::WithFlags(_, count, _) => write_sum(out, count, None),
    }
}

/// Writes an array.
fn write_array<W: fmt::Write>(out: &mut W, of: Option<Native>, size: ArraySize) -> fmt::Result
    ensures { OnOk result (WritesInCalls W.write_str_gives out.old (element_word of ++ size_text size) out.new) }
{
    write_text(out, element_word(of))?;
    write_size(out, size)
}

/// Writes an array in place.
fn write_fixed_array<W: fmt::Write>(out: &mut W, count: u32, of: Option<Native>) -> fmt::Result
    ensures { OnOk result (WritesInCalls W.write_str_gives out.old (fixed_text count of) out.new) }
{
    match of {
        Some(of) => write!(out, "fixed array [{count}] {}", of.word()),
        None => write!(out, "fixed array [{count}]"),
    }
}

/// Writes a type of VARIANT after a space; nothing if it is any.
fn write_variant<W: fmt::Write>(out: &mut W, of: u32) -> fmt::Result
    ensures { OnOk result (WritesInCalls W.write_str_gives out.old (variant_text of) out.new) }
{
    if of == 0 {
        return Ok(());
    }
    match variant_word(of) {
        "" => write!(out, " {of}"),
        word => write!(out, " {word}"),
    }
}

/// Writes a text of the blob in quotes.
fn write_in_quotes<W: fmt::Write, L: Limit<W>>(out: &mut W, text: &str, limit: &L) -> fmt::Result
    ensures { OnOk result (WritesInCalls W.write_str_gives out.old (quoted_text text.now) out.new) }
{
    write!(out, "\"")?;
    write_quoted(out, text, limit)?;
    write!(out, "\"")
}

/// Writes the name of a type after a comma, unless the name is empty.
fn write_type_after<W: fmt::Write, L: Limit<W>>(out: &mut W, name: &str, limit: &L) -> fmt::Result
    ensures { OnOk result (WritesInCalls W.write_str_gives out.old (type_after name.now) out.new) }
{
    if name.is_empty() {
        return Ok(());
    }
    write!(out, ", ")?;
    write_in_quotes(out, name, limit)
}

/// Writes the first two texts of a custom marshaler, unless both are empty.
fn write_library<W: fmt::Write, L: Limit<W>>(
    out: &mut W,
    guid: &str,
    unmanaged: &str,
    limit: &L,
) -> fmt::Result
    ensures { OnOk result (WritesInCalls W.write_str_gives out.old (library_text guid.now unmanaged.now) out.new) }
{
    if guid.is_empty() && unmanaged.is_empty() {
        return Ok(());
    }
    write_in_quotes(out, guid, limit)?;
    write!(out, ", ")?;
    write_in_quotes(out, unmanaged, limit)?;
    write!(out, ", ")
}

/// Writes a custom marshaler.
fn write_custom<W: fmt::Write, L: Limit<W>>(
    out: &mut W,
    custom: Custom<'_>,
    limit: &L,
) -> fmt::Result
    ensures { OnOk result (WritesInCalls W.write_str_gives out.old (custom_text (custom_view custom.entry)) out.new) }
{
    write!(out, "custom(")?;
    write_library(out, custom.guid, custom.unmanaged, limit)?;
    write_in_quotes(out, custom.marshaler, limit)?;
    write!(out, ", ")?;
    write_in_quotes(out, custom.cookie, limit)?;
    write!(out, ")")
}

/// Writes an array of COM of a type of VARIANT, and the name of the type of its elements.
fn write_safe_array<W: fmt::Write, L: Limit<W>>(
    out: &mut W,
    of: u32,
    name: &str,
    limit: &L,
) -> fmt::Result
    ensures { OnOk result (WritesInCalls W.write_str_gives out.old (safe_text of name.now) out.new) }
{
    write!(out, "safearray")?;
    write_variant(out, of)?;
    write_type_after(out, name, limit)
}

/// Writes how a field, a parameter or a result is passed to native code, as ILAsm does between the parentheses of `marshal`
/// (II.7.4): `lpstr`, `unsigned int32[+ 2]`, `custom("Marshaler, Library", "cookie")`. Texts of the blob are written by
/// [`write_quoted`](full_names::write_quoted).
pub fn write_descriptor<W: fmt::Write, L: Limit<W>>(
    out: &mut W,
    descriptor: Descriptor<'_>,
    limit: &L,
) -> fmt::Result
    ensures { OnOk result (WritesInCalls W.write_str_gives out.old (descriptor_text (view descriptor.entry)) out.new) }
{
    match descriptor {
        Descriptor::Native(of) => write_text(out, of.word()),
        Descriptor::Array(of, size) => write_array(out, of, size),
        Descriptor::InterfaceOf(of, param) => write!(out, "{}(iidparam = {param})", of.word()),
        Descriptor::FixedString(count) => write!(out, "fixed sysstring [{count}]"),
        Descriptor::FixedArray(count, of) => write_fixed_array(out, count, of),
        Descriptor::SafeArray => write!(out, "safearray"),
        Descriptor::SafeArrayOf(of) => write_safe_array(out, of, "", limit),
        Descriptor::SafeArrayNamed(of, name) => write_safe_array(out, of, name, limit),
        Descriptor::Custom(custom) => write_custom(out, custom, limit),
    }
}

/// The descriptor that a blob is (II.23.4); `None` if it is none, or has more than 65,536 bytes.
pub fn descriptor_in(blob: &[u8]) -> Option<Descriptor<'_>>
    ensures { option_map view result ≡ descriptor_in blob.now }
{
    if blob.len() > LIMIT {
        return None;
    }
    read_descriptor(blob)
}

/// Writes the two hexadecimal digits of a byte.
fn write_byte<W: fmt::Write>(out: &mut W, byte: u8) -> fmt::Result
    ensures { OnOk result (WritesInCalls W.write_str_gives out.old (hexadecimal 2 byte) out.new) }
{
    write!(out, "{byte:02x}")
}

/// Writes two hexadecimal digits for each byte, until the limit is reached.
fn write_bytes<W: fmt::Write, L: Limit<W>>(out: &mut W, blob: &[u8], limit: &L) -> fmt::Result
    ensures { OnOk result (WritesInCalls W.write_str_gives out.old (bytes_text blob.now) out.new) }
{
    for byte in blob {
        if limit.is_reached(out) {
            return Ok(());
        }
        write_byte(out, *byte)?;
    }
    Ok(())
}

/// Writes a descriptor, or the bytes of a blob that is none.
fn write_content<W: fmt::Write, L: Limit<W>>(out: &mut W, blob: &[u8], limit: &L) -> fmt::Result
    ensures { OnOk result (WritesInCalls W.write_str_gives out.old (content_text (descriptor_in blob.now) blob.now) out.new) }
{
    match descriptor_in(blob) {
        Some(of) => write_descriptor(out, of, limit),
        None => write_bytes(out, blob, limit),
    }
}

/// Writes how a parameter or a result is marshalled.
fn write_marshal<W: fmt::Write, L: Limit<W>>(out: &mut W, blob: &[u8], limit: &L) -> fmt::Result
    ensures { OnOk result (WritesInCalls W.write_str_gives out.old (marshal_text blob.now) out.new) }
{
    write!(out, "marshal(")?;
    write_content(out, blob, limit)?;
    write!(out, ")")
}

/// Writes how a parameter is marshalled, after a space; nothing if it is not.
pub(crate) fn write_after_space<W: fmt::Write, L: Limit<W>>(
    out: &mut W,
    blob: Option<&[u8]>,
    limit: &L,
) -> fmt::Result
    ensures { OnOk result (WritesInCalls W.write_str_gives out.old (marshalled after_space (option_map (λ of. of.now) blob.entry)) out.new) }
{
    match blob {
        Some(blob) => {
            write!(out, " ")?;
            write_marshal(out, blob, limit)
        }
        None => Ok(()),
    }
}

/// Writes how a result is marshalled, before a space; nothing if it is not.
pub(crate) fn write_before_space<W: fmt::Write, L: Limit<W>>(
    out: &mut W,
    blob: Option<&[u8]>,
    limit: &L,
) -> fmt::Result
    ensures { OnOk result (WritesInCalls W.write_str_gives out.old (marshalled before_space (option_map (λ of. of.now) blob.entry)) out.new) }
{
    match blob {
        Some(blob) => {
            write_marshal(out, blob, limit)?;
            write!(out, " ")
        }
        None => Ok(()),
    }
}
