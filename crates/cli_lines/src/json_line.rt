//! Appends the parts of a line of JSON.
ghost use Rattle.std.specs.Prelude.{◌≡◌, ◌++◌, ◌∷◌, List, OnOk, IfOk, Some};
ghost use Rattle.json.specs.Print.{print};
ghost use Rattle.json.specs.Token as json;
ghost use Rattle.cli_lines.specs.declared.line.Before.TheVariants as here;
ghost use Rattle.cli_lines.specs.Lines.{json_from, named_token, part_tokens, row_values, value_tokens};
ghost use Rattle.cli_lines.specs.Shown.{shown, shown_file, shown_value};

use crate::json_texts::{push_digit_string, push_signature, push_string};
use crate::json_units::push_units_member;
use crate::line::Before;
use crate::names::{Name, keys_of};
use crate::parts::{Part, Value};
use crate::texts::{Pushed, push_between, push_decimal};
use heap_entries::guid_text;
use std::alloc::AllocError;
use table_schema::Token;

/// Appends a value.
#[tactic(auto, using(std::proofs::lemmas::Grind::common_steps, crate::proofs::PlainLemmas::bytes_are_plain, crate::proofs::PlainLemmas::padded_is_plain, crate::proofs::PlainLemmas::token_is_plain), unfolding(json::specs::Print::print_from))]
#[inline(always)]
fn push_json_value(value: &Value<'_>, line: &mut Vec<u8>) -> Pushed
    ensures { OnOk result (line.new.items ≡ line.old.items ++ print (value_tokens (shown_value value.now))) }
{
    match value {
        Value::Number(number) | Value::Start(number) => push_decimal(*number, line),
        Value::Text(text) | Value::Plain(text) | Value::Quoted(text) => {
            push_string(text.as_bytes(), line)
        }
        Value::Hex(_) | Value::Byte(_) | Value::Token(_) | Value::Reference(Some(_)) => {
            push_digit_string(value, line)
        }
        Value::Bytes(bytes) => push_between(b'"', bytes, b'"', line),
        Value::Guid(Some(of)) => push_string(guid_text(*line.allocator(), of)?.as_bytes(), line),
        Value::Signature(blob, text) => push_signature(blob, text, line),
        Value::Yes => line.extend_from_slice(b"true"),
        Value::Reference(None) | Value::Guid(None) | Value::Null => line.extend_from_slice(b"null"),
    }
}

/// Begins a line with the name of a file. What follows is after a value.
#[tactic(auto, unfolding(json::specs::Print::print_from, json::specs::Print::escape_byte))]
#[inline(never)]
fn push_file(file: &str, line: &mut Vec<u8>) -> Pushed
    ensures { OnOk result ((next : json.Token) (more : List json.Token) → line.new.items ++ json_from (Some file.now) here.Value (next ∷ more)
        ≡ line.old.items ++ json_from (Some file.now) here.Line (next ∷ more)) }
{
    line.extend_from_slice(b"{\"file\":")?;
    push_string(file.as_bytes(), line)
}

/// Appends the name of a member, with what is before and after it.
#[tactic(auto, unfolding(json::specs::Print::print_from))]
#[inline(always)]
pub(crate) fn push_name(file: Option<&str>, at: Before, name: Name, line: &mut Vec<u8>) -> Pushed
    ensures { OnOk result ((more : List json.Token) → line.new.items ++ json_from (shown_file file.entry) here.Brace more
        ≡ line.old.items ++ json_from (shown_file file.entry) at (named_token name ∷ more)) }
{
    let key = name.key().as_bytes();
    let (_, colon) = key.split_at(1);
    match (at, file) {
        (Before::Line, Some(file)) => {
            push_file(file, line)?;
            line.extend_from_slice(key)
        }
        (Before::Line, None) => {
            line.push(b'{')?;
            line.extend_from_slice(colon)
        }
        (Before::Brace, _) => line.extend_from_slice(colon),
        (Before::Value, _) => line.extend_from_slice(key),
    }
}

/// Appends the table, the number and the token of a row.
#[inline(never)]
fn push_row(row: Token, line: &mut Vec<u8>) -> Pushed
    ensures { OnOk result (line.new.items ≡ line.old.items ++ print (row_values row)) }
{
    line.extend_from_slice(keys_of(row.table).row.as_bytes())?;
    push_decimal(row.row as u64, line)?;
    line.extend_from_slice(b",\"token\":")?;
    push_digit_string(&Value::Token(row), line)
}

/// Appends a member.
#[inline(always)]
pub(crate) fn push_member(
    file: Option<&str>,
    at: Before,
    name: Name,
    value: &Value<'_>,
    line: &mut Vec<u8>,
) -> Pushed
    ensures { OnOk result ((more : List json.Token) → line.new.items ++ json_from (shown_file file.entry) here.Value more
        ≡ line.old.items ++ json_from (shown_file file.entry) at (named_token name ∷ (value_tokens (shown_value value.now) ++ more))) }
{
    push_name(file, at, name, line)?;
    push_json_value(value, line)
}

/// Appends the brace that closes an object.
#[tactic(auto, unfolding(json::specs::Print::print_from))]
fn push_close(file: Option<&str>, at: Before, line: &mut Vec<u8>) -> Pushed
    ensures { OnOk result ((more : List json.Token) → line.new.items ++ json_from (shown_file file.entry) here.Value more
        ≡ line.old.items ++ json_from (shown_file file.entry) at (json.end_object ∷ more)) }
{
    match (at, file) {
        (Before::Line, Some(file)) => {
            push_file(file, line)?;
            Ok(line.push(b'}')?)
        }
        (Before::Line, None) => line.extend_from_slice(b"{}"),
        (Before::Brace | Before::Value, _) => Ok(line.push(b'}')?),
    }
}

/// Appends a part of a line of JSON, and before the first member that of the file. Returns where the printer is then.
#[tactic(auto, unfolding(json::specs::Print::print_from))]
#[inline(always)]
pub(crate) fn push_json_part(
    file: Option<&str>,
    at: Before,
    part: &Part<'_>,
    line: &mut Vec<u8>,
) -> Result<Before, AllocError>
    ensures { IfOk result (λ now. (more : List json.Token) → line.new.items ++ json_from (shown_file file.entry) now more
        ≡ line.old.items ++ json_from (shown_file file.entry) at (part_tokens (shown part.now) ++ more)) }
{
    match part {
        Part::Word(_) | Part::Note(_) => Ok(at),
        Part::Field(name, value) | Part::Member(name, value) | Part::Spaced(name, value) => {
            push_member(file, at, *name, value, line)?;
            Ok(Before::Value)
        }
        Part::RowNumber(row) | Part::RowToken(row) => {
            push_name(file, at, Name::Table, line)?;
            push_row(*row, line)?;
            Ok(Before::Value)
        }
        Part::Units(string) => {
            push_units_member(file, at, string.units(), line)?;
            Ok(Before::Value)
        }
        Part::Open(name) => {
            push_name(file, at, *name, line)?;
            line.push(b'{')?;
            Ok(Before::Brace)
        }
        Part::Close => {
            push_close(file, at, line)?;
            Ok(Before::Value)
        }
    }
}
