//! Arguments, without the elements of arrays.
ghost use Rattle.std.specs.Prelude.{◌≡◌, OnOk};
ghost use Rattle.std.specs.Fmt.{WritesInCalls};
ghost use Rattle.blob_values.specs.Views.{head_view};
ghost use Rattle.custom_attributes.specs.Texts.{intro_text, type_text};
ghost use Rattle.custom_attributes.specs.ItemTexts.{end_if_none, entries_in, head_text, head_type};

use crate::scalars::{element_type, write_element};
use crate::words::{member_word, type_word};
use blob_values::{Argument, ArgumentType, Member};
use full_names::{Limit, write_quoted, write_text};
use std::fmt;

/// The end of an array without elements.
fn end_if_none(count: u32) -> &'static str
    ensures { result.now ≡ end_if_none count }
{
    if count == 0 { ")" } else { "" }
}

/// Writes an argument without the elements of an array.
pub(crate) fn write_argument<W: fmt::Write, L: Limit<W>>(
    out: &mut W,
    argument: Argument<'_>,
    limit: &L,
) -> fmt::Result
    ensures { OnOk result (WritesInCalls W.write_str_gives out.old (head_text (head_view argument.entry)) out.new) }
{
    match argument {
        Argument::One(value) => write_element(out, value, limit),
        Argument::Vector(of, Some(count)) => {
            write!(out, "{}[{count}]({}", type_word(of), end_if_none(count))
        }
        Argument::Vector(of, None) => write!(out, "{}[](nullref)", type_word(of)),
    }
}

/// The number of elements that follow an argument.
pub(crate) fn entries_in(argument: Argument<'_>) -> u32
    ensures { result ≡ entries_in (head_view argument.entry) }
{
    match argument {
        Argument::Vector(_, Some(count)) => count,
        _ => 0,
    }
}

/// The type of an argument.
fn argument_type(argument: Argument<'_>) -> ArgumentType
    ensures { result ≡ head_type (head_view argument.entry) }
{
    match argument {
        Argument::One(value) => ArgumentType::One(element_type(value)),
        Argument::Vector(of, _) => ArgumentType::Vector(of),
    }
}

/// Writes the type of an argument.
fn write_type<W: fmt::Write>(out: &mut W, of: ArgumentType) -> fmt::Result
    ensures { OnOk result (WritesInCalls W.write_str_gives out.old (type_text of) out.new) }
{
    match of {
        ArgumentType::One(of) => write_text(out, type_word(of)),
        ArgumentType::Vector(of) => write!(out, "{}[]", type_word(of)),
    }
}

/// Writes what precedes the value of a named argument: the member, its type and its name.
pub(crate) fn write_intro<W: fmt::Write, L: Limit<W>>(
    out: &mut W,
    member: Member,
    name: &str,
    argument: Argument<'_>,
    limit: &L,
) -> fmt::Result
    ensures { OnOk result (WritesInCalls W.write_str_gives out.old (intro_text member (head_type (head_view argument.entry)) name.now) out.new) }
{
    write!(out, " ")?;
    write_text(out, member_word(member))?;
    write!(out, " ")?;
    write_type(out, argument_type(argument))?;
    write!(out, " \"")?;
    write_quoted(out, name, limit)?;
    write!(out, "\" = ")
}
