//! Appends the pieces of a line.
ghost use Rattle.std.specs.Prelude.{◌≡◌, ◌≤◌, ◌<◌, ◌++◌, true, string_bytes, OnOk};
ghost use Rattle.cli_declarations.specs.Words.{Param, Metadata, IsModel, shown_word, word_text, words_of, words_text, row_count, token_text};
ghost use Rattle.cli_declarations.specs.Parts.{IsAfter, IsNameText, IsNaming, IsPartText, IsReferenceIn, IsReferred, bytes_text, guid_text_in_comment, has_reference, key_text, quoted_text};
ghost use Rattle.cli_declarations.specs.Shown.{IsWithin, shown};
ghost use Rattle.cli_declarations.specs.Texts.{Gains};

use crate::blob_sink::push_declaration;
use crate::declared::{
    Declared, Pushed, TextLimit, begin_text, end_text, push_plain, push_string, push_text,
};
use crate::layouts::{Naming, Piece};
use crate::linked::{push_linked, push_listed};
use cli_values::{
    push_action, push_decimal, push_eight_digits, push_hexadecimal, push_value_bytes,
};
use declarations::write_reference;
use full_names::write_row_name;
use heap_entries::guid_text;
use navigation::{Neighbours, method_of_param};
use opening::{
    TableId, Token, bytes_or_empty, guid_or_null, number_or_zero, reference_or_null, text_or_empty,
};
use std::alloc::AllocError;
use std::fmt::Write;
use type_heads::{FlagTable, FlagWord, words_of};

/// The cell of the position of a parameter (II.22.33).
const SEQUENCE: usize = 1;

/// Appends a space and the word, if the flags have its value.
fn push_word(flags: u32, word: FlagWord, declared: &mut Declared) -> Pushed
    ensures { OnOk result (string_bytes declared.new.text ≡ string_bytes declared.old.text ++ word_text flags (shown_word word)) }
{
    if flags & word.mask != word.value {
        return Ok(());
    }
    push_plain(" ", declared)?;
    push_plain(word.text, declared)
}

/// Appends the digits of a token.
fn push_token(token: Token, declared: &mut Declared) -> Pushed
    ensures { OnOk result (string_bytes declared.new.text ≡ string_bytes declared.old.text ++ token_text token) }
{
    write!(declared.text, "{token}").map_err(|_| AllocError)
}

/// Appends the words of flags, a space before each.
#[tactic(auto, using(crate::proofs::TextLemmas::items_more))]
fn push_words(flags: u32, of: FlagTable, declared: &mut Declared) -> Pushed
    ensures { OnOk result (string_bytes declared.new.text ≡ string_bytes declared.old.text ++ words_text flags (words_of of)) }
{
    for word in words_of(of) {
        push_word(flags, *word, declared)?;
    }
    Ok(())
}

/// Appends a word and a text in quotes, unless the text is empty.
fn push_quoted(word: &str, text: &str, declared: &mut Declared) -> Pushed
    ensures { OnOk result (string_bytes declared.new.text ≡ string_bytes declared.old.text ++ quoted_text word.now text.now) }
{
    if text.is_empty() {
        return Ok(());
    }
    push_plain(word, declared)?;
    push_plain("\"", declared)?;
    push_string(text, declared)?;
    push_plain("\"", declared)
}

/// Appends a word and bytes in parentheses, unless there are none.
fn push_bytes(word: &str, bytes: &[u8], declared: &mut Declared) -> Pushed
    ensures { OnOk result (string_bytes declared.new.text ≡ string_bytes declared.old.text ++ bytes_text word.now bytes.now) }
{
    if bytes.is_empty() {
        return Ok(());
    }
    push_plain(word, declared)?;
    push_plain("(", declared)?;
    push_hexadecimal(bytes, &mut declared.text)?;
    push_plain(")", declared)
}

/// Appends the words for a public key or the token of one, and its bytes, unless there are none.
fn push_key(flags: u32, bytes: &[u8], declared: &mut Declared) -> Pushed
    ensures { OnOk result (string_bytes declared.new.text ≡ string_bytes declared.old.text ++ key_text flags bytes.now) }
{
    if bytes.is_empty() {
        return Ok(());
    }
    push_words(flags, FlagTable::Key, declared)?;
    push_bytes(" = ", bytes, declared)
}

/// Appends the name of a row.
pub(crate) fn push_name(
    source: &Neighbours<'_, '_>,
    token: Token,
    declared: &mut Declared,
) -> Pushed
    ensures { (model : Metadata) → IsModel source.now.view.now model → OnOk result (Gains (IsNameText model token) declared.old declared.new) }
{
    begin_text(declared);
    let written = write_row_name(declared.alloc, source, token, &TextLimit, declared);
    end_text(written, declared)
}

/// Whether the reference to a row of a table says which row it is: a type or a member of this module, or a MemberRef.
fn has_reference(table: TableId) -> bool
    ensures { result ≡ has_reference table }
{
    matches!(
        table,
        TableId::TypeDef
            | TableId::Field
            | TableId::MethodDef
            | TableId::Event
            | TableId::Property
            | TableId::MemberRef
    )
}

/// Appends the reference to a type, a member or a MemberRef.
fn push_member(source: &Neighbours<'_, '_>, token: Token, declared: &mut Declared) -> Pushed
    ensures { (model : Metadata) → IsModel source.now.view.now model → OnOk result (Gains (IsReferred model true token) declared.old declared.new) }
{
    begin_text(declared);
    let written = write_reference(declared.alloc, source, token, &TextLimit, declared);
    end_text(written, declared)
}

/// Appends the reference to a parameter: its position, and the reference to its method; or its token if it does not exist.
#[tactic(auto, unfolding(table_schema::specs::CellColumns::cell_columns))]
fn push_param(source: &Neighbours<'_, '_>, token: Token, declared: &mut Declared) -> Pushed
    ensures { (model : Metadata) → IsModel source.now.view.now model → OnOk result (Gains (IsReferenceIn model Param token) declared.old declared.new) }
{
    if token.row == 0 || token.row > source.view.count(TableId::Param) {
        return push_token(token, declared);
    }
    let method = Token {
        table: TableId::MethodDef,
        row: method_of_param(source, token.row),
    };
    let position = number_or_zero(source.view, TableId::Param, token.row, SEQUENCE);
    push_plain("param [", declared)?;
    push_decimal(position as u64, &mut declared.text)?;
    push_plain("] of ", declared)?;
    push_member(source, method, declared)
}

/// Appends the reference to a row, or its token if the reference does not say which row it is.
fn push_reference(source: &Neighbours<'_, '_>, token: Token, declared: &mut Declared) -> Pushed
    ensures { (model : Metadata) → IsModel source.now.view.now model → OnOk result (Gains (IsReferenceIn model token.table token) declared.old declared.new) }
{
    match token.table {
        TableId::Param => push_param(source, token, declared),
        table if has_reference(table) => push_member(source, token, declared),
        _ => push_token(token, declared),
    }
}

/// Appends what a row is referred to by.
fn push_row(
    source: &Neighbours<'_, '_>,
    how: Naming,
    token: Token,
    declared: &mut Declared,
) -> Pushed
    ensures { (model : Metadata) → IsModel source.now.view.now model → OnOk result (Gains (IsNaming how model token) declared.old declared.new) }
{
    match how {
        Naming::Token => push_token(token, declared),
        Naming::Name => push_name(source, token, declared),
        Naming::Reference => push_reference(source, token, declared),
    }
}

/// Appends a word and what a row is referred to by, unless the reference is null.
fn push_after(
    source: &Neighbours<'_, '_>,
    word: &str,
    how: Naming,
    reference: Option<Token>,
    declared: &mut Declared,
) -> Pushed
    ensures { (model : Metadata) → IsModel source.now.view.now model → OnOk result (Gains (IsAfter model word.now how reference) declared.old declared.new) }
{
    match reference {
        Some(token) => {
            push_plain(word, declared)?;
            push_row(source, how, token, declared)
        }
        None => Ok(()),
    }
}

/// Appends a GUID in braces in a comment, unless it is null.
fn push_guid_comment(guid: Option<[u8; 16]>, declared: &mut Declared) -> Pushed
    ensures { OnOk result (string_bytes declared.new.text ≡ string_bytes declared.old.text ++ guid_text_in_comment guid) }
{
    match guid {
        Some(guid) => {
            let digits = guid_text(declared.alloc, &guid)?;
            push_plain(" /* {", declared)?;
            push_plain(&digits, declared)?;
            push_plain("} */", declared)
        }
        None => Ok(()),
    }
}

/// Appends a piece of the line of a row.
pub(crate) fn push_piece(
    source: &Neighbours<'_, '_>,
    table: TableId,
    row: u32,
    piece: Piece,
    declared: &mut Declared,
) -> Pushed
    requires first { 1 ≤ row }
    requires last { row ≤ row_count source.now.view.now table }
    requires within { IsWithin table (shown piece) }
    ensures { (model : Metadata) → IsModel source.now.view.now model → OnOk result (Gains (IsPartText model table row (shown piece)) declared.old declared.new) }
{
    let (view, token) = (source.view, Token { table, row });
    match piece {
        Piece::Word(word) => push_plain(word, declared),
        Piece::Flags(of, cell) => push_words(number_or_zero(view, table, row, cell), of, declared),
        Piece::Text(cell) => push_text(text_or_empty(view, table, row, cell), declared),
        Piece::Number(cell) => {
            let number = number_or_zero(view, table, row, cell);
            push_decimal(number as u64, &mut declared.text)
        }
        Piece::QuotedAfter(word, cell) => {
            push_quoted(word, text_or_empty(view, table, row, cell), declared)
        }
        Piece::BytesAfter(word, cell) => {
            push_bytes(word, bytes_or_empty(view, table, row, cell), declared)
        }
        Piece::Key(flags, cell) => {
            let flags = number_or_zero(view, table, row, flags);
            push_key(flags, bytes_or_empty(view, table, row, cell), declared)
        }
        Piece::FirstBytes(cell) => {
            push_value_bytes(bytes_or_empty(view, table, row, cell), &mut declared.text)
        }
        Piece::Declaration => push_declaration(source, table, row, declared),
        Piece::Own(how) => push_row(source, how, token, declared),
        Piece::After(word, how, cell) => {
            let of = reference_or_null(view, table, row, cell);
            push_after(source, word, how, of, declared)
        }
        Piece::EightDigits(cell) => {
            let number = number_or_zero(view, table, row, cell);
            push_eight_digits(number as u64, &mut declared.text)
        }
        Piece::GuidComment(cell) => {
            push_guid_comment(guid_or_null(view, table, row, cell), declared)
        }
        Piece::Action(cell) => {
            let action = number_or_zero(view, table, row, cell);
            push_action(action, &mut declared.text)
        }
        Piece::Linked(link) => push_linked(source, link, token, declared),
        Piece::Listed(link, before, after) => {
            push_listed(source, link, before, after, token, declared)
        }
    }
}
