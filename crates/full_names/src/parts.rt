ghost use Rattle.std.specs.Prelude.{OnOk, codes};
ghost use Rattle.std.specs.Fmt.{WritesInCalls, decimal, signed_decimal};

use std::fmt;

/// Writes a text, unchanged.
pub fn write_text<W: fmt::Write>(out: &mut W, text: &str) -> fmt::Result
    ensures { OnOk result (WritesInCalls W.write_str_gives out.old text.now out.new) }
{
    write!(out, "{text}")
}

/// Writes a number, in decimal digits.
pub fn write_number<W: fmt::Write>(out: &mut W, number: u32) -> fmt::Result
    ensures { OnOk result (WritesInCalls W.write_str_gives out.old (decimal number) out.new) }
{
    write!(out, "{number}")
}

/// Writes a signed number, in decimal digits.
pub fn write_signed<W: fmt::Write>(out: &mut W, value: i64) -> fmt::Result
    ensures { OnOk result (WritesInCalls W.write_str_gives out.old (signed_decimal value) out.new) }
{
    write!(out, "{value}")
}

/// Writes what is between the names of two types of a chain.
pub fn write_slash<W: fmt::Write>(out: &mut W) -> fmt::Result
    ensures { OnOk result (WritesInCalls W.write_str_gives out.old (codes "/") out.new) }
{
    write!(out, "/")
}

/// Writes what stands for the part of a name that is left out.
pub fn write_left_out<W: fmt::Write>(out: &mut W) -> fmt::Result
    ensures { OnOk result (WritesInCalls W.write_str_gives out.old (codes "..") out.new) }
{
    write!(out, "..")
}
