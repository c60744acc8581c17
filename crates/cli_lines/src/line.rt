//! Appends the parts of a line to the bytes that wait to be sent.
ghost use Rattle.std.specs.Prelude.{◌≡◌, ◌++◌, ◌∷◌, [], ℕ, List, OnOk, Option, IfOk};
ghost use Rattle.cli_lines.specs.Lines.{Part as ThePart, lead, line_from, part_letters, part_text, style, value_text};
ghost use Rattle.cli_lines.specs.Shown.{shown, shown_file, shown_value};

use crate::json_line::push_json_part;
use crate::parts::{Form, Part, Value};
use crate::texts::{
    Pushed, push_between, push_byte_digits, push_decimal, push_escaped, push_plain, push_quoted,
    push_token, push_units, push_word,
};
use cli_sending::show_letters;
use heap_entries::guid_text;
use std::alloc::AllocError;

/// Where a printer is in its line of JSON.
#[derive(Clone, Copy)]
pub enum Before {
    /// At the start of the line.
    Line,
    /// After the brace that opens an object.
    Brace,
    /// After a value.
    Value,
}

/// Appends a value as in a line of text.
#[inline(always)]
pub(crate) fn push_text_value(value: &Value<'_>, line: &mut Vec<u8>) -> Pushed
    ensures { OnOk result (line.new.items ≡ line.old.items ++ value_text (shown_value value.now)) }
{
    match value {
        Value::Number(number) => push_decimal(*number, line),
        Value::Hex(number) => push_word(*number, line),
        Value::Byte(number) => push_byte_digits(*number, line),
        Value::Text(text) => push_escaped(text.as_bytes(), line),
        Value::Plain(text) => push_plain(text, line),
        Value::Token(of) | Value::Reference(Some(of)) => push_token(*line.allocator(), *of, line),
        Value::Quoted(text) => push_quoted(text.as_bytes(), line),
        Value::Bytes(bytes) | Value::Signature(bytes, _) => push_between(b'<', bytes, b'>', line),
        Value::Guid(Some(guid)) => {
            let text = guid_text(*line.allocator(), guid)?;
            line.push(b'{')?;
            line.extend_from_slice(text.as_bytes())?;
            Ok(line.push(b'}')?)
        }
        Value::Start(start) => {
            line.push(b'+')?;
            push_decimal(*start, line)
        }
        Value::Yes => push_plain("true", line),
        Value::Reference(None) | Value::Guid(None) | Value::Null => push_plain("null", line),
    }
}

/// Appends a part of a line of text.
#[inline(always)]
fn push_text_part(part: &Part<'_>, line: &mut Vec<u8>) -> Pushed
    ensures { OnOk result (line.new.items ≡ line.old.items ++ part_text (shown part.now)) }
{
    match part {
        Part::Word(word) => push_plain(word, line),
        Part::Field(_, value) | Part::Note(value) => push_text_value(value, line),
        Part::Spaced(_, value) => {
            line.push(b' ')?;
            push_text_value(value, line)
        }
        Part::RowNumber(row) => {
            push_decimal(row.row as u64, line)?;
            Ok(line.push(b':')?)
        }
        Part::RowToken(row) => push_token(*line.allocator(), *row, line),
        Part::Units(string) => push_units(string.units(), line),
        Part::Member(_, _) | Part::Open(_) | Part::Close => Ok(()),
    }
}

/// Appends a part of a line of text, with letters beyond ASCII as they are.
#[tactic(auto, using(crate::proofs::TextLemmas::letters_shown))]
#[inline(never)]
fn push_letters_part(part: &Part<'_>, line: &mut Vec<u8>) -> Pushed
    ensures { OnOk result (line.new.items ≡ line.old.items ++ part_letters (shown part.now)) }
{
    let start = line.len();
    push_text_part(part, line)?;
    show_letters(start, line)
}

/// Appends a part of a line. Returns where the printer is then.
#[inline(always)]
pub(crate) fn push_part(
    form: Form,
    file: Option<&str>,
    at: Before,
    part: &Part<'_>,
    line: &mut Vec<u8>,
) -> Result<Before, AllocError>
    ensures { IfOk result (λ now. (more : List ThePart) → line.new.items ++ line_from (style form (shown_file file.entry)) now more
        ≡ line.old.items ++ line_from (style form (shown_file file.entry)) at (shown part.now ∷ more)) }
{
    match form {
        Form::Text => {
            push_text_part(part, line)?;
            Ok(at)
        }
        Form::Letters => {
            push_letters_part(part, line)?;
            Ok(at)
        }
        Form::JsonLines => push_json_part(file, at, part, line),
    }
}

/// Appends what a line of text begins with: the name of the file, if there is one.
pub(crate) fn push_lead(form: Form, file: Option<&str>, line: &mut Vec<u8>) -> Pushed
    ensures { OnOk result (line.new.items ≡ line.old.items ++ lead form (shown_file file.entry)) }
{
    match (form, file) {
        (Form::Text, Some(file)) => {
            push_escaped(file.as_bytes(), line)?;
            line.extend_from_slice(b": ")
        }
        (Form::Letters, Some(file)) => {
            push_letters_part(&Part::Note(Value::Text(file)), line)?;
            line.extend_from_slice(b": ")
        }
        _ => Ok(()),
    }
}

/// Appends the end of a line. In JSON a line without members is no line.
#[tactic(auto, unfolding(crate::specs::Lines::line_from, json::specs::Print::print_from))]
pub(crate) fn push_end(form: Form, at: Before, line: &mut Vec<u8>) -> Pushed
    ensures { OnOk result ((file : Option (List ℕ)) → line.new.items ≡ line.old.items ++ line_from (style form file) at []) }
{
    match (form, at) {
        (Form::Text | Form::Letters, _) => Ok(line.push(b'\n')?),
        (Form::JsonLines, Before::Line) => Ok(()),
        (Form::JsonLines, Before::Brace | Before::Value) => line.extend_from_slice(b"}\n"),
    }
}
