//! The name and the declaration of a row in a caller's buffer, in the notation of ILAsm.
ghost use Rattle.std.specs.Prelude.{◌≡◌, ◌≢◌, ◌≤◌, ◌⊎◌, ◌^◌, ◌+◌, ◌-◌, List, ℕ, IfOk, OnOk, true, false, length};
ghost use Rattle.table_schema.specs.declared.table.TableId.TheVariants.{Field};
ghost use Rattle.table_schema.specs.declared.token.Token.{Token as TheToken};
ghost use Rattle.metadata.specs.Metadata.{Metadata};
ghost use Rattle.metadata.specs.Model.{IsModel};
ghost use Rattle.opening.specs.Views.{row_count};
ghost use Rattle.full_names.specs.declared.limit.Scopes.TheVariants.{Omitted};
ghost use Rattle.full_names.specs.Names.{Wrote};
ghost use Rattle.c_texts.specs.RowTexts.{IsFieldDeclaration, IsRowText, IsTextWithin, IsTokenIn, has_text};
ghost use Rattle.c_texts.specs.Texts.{HasText, text_limit};

use crate::limited_text::{LimitedText, TEXT_LIMIT, TextLimit, len_within};
use crate::parts::NO_MEMORY;
use declarations::{write_method_within, write_property_within, write_signature_text};
use full_names::{
    DEPTH, Limit, NameKind, ReadCells, ReadMetadata, TextError, bytes_of, write_name,
    write_row_name, write_text, write_type_def_within,
};
use navigation::cells;
use opening::View;
use std::alloc::Global;
use std::fmt;
use table_schema::{SigKind, TableId, Token};

/// The cell of a field's name (II.22.15).
const FIELD_NAME: usize = 1;

/// The cell of a field's signature (II.22.15).
const FIELD_SIGNATURE: usize = 2;

/// A text of a row.
#[derive(Clone, Copy)]
pub enum RowText {
    /// Its name (II.5.3), as [`write_row_name`] writes it.
    Name,
    /// Its declaration: of a type (II.10.1) its full name, of a field (II.16.1) its signature and its own name, and of a
    /// method (II.15.3) or a property (II.17) as [`write_method_within`] and [`write_property_within`] write it.
    Declaration,
}

/// Whether the rows of a table have a text.
fn has_text(of: RowText, table: TableId) -> bool
    ensures { result ≡ has_text of table }
{
    match of {
        RowText::Name => true,
        RowText::Declaration => matches!(
            table,
            TableId::TypeDef | TableId::Field | TableId::MethodDef | TableId::Property
        ),
    }
}

/// Writes the declaration of a field: its signature, a space, and its own name.
#[tactic(auto, unfolding(table_schema::specs::CellColumns::cell_columns))]
fn write_field<W: fmt::Write, L: Limit<W>>(
    alloc: Global,
    view: &View<'_>,
    row: u32,
    limit: &L,
    out: &mut W,
) -> Result<(), TextError>
    requires first { 1 ≤ row }
    requires last { row ≤ row_count view.now Field }
    requires omitted { L.scopes ≡ Omitted }
    ensures { (model : Metadata) → IsModel view.now model → OnOk result (Wrote W.write_str_gives out.old (IsFieldDeclaration model row) out.new) }
{
    sig_grammar::laws::shortest_encodes();
    view.holds_one();
    let kind = SigKind::Field;
    let bytes = view.signature(alloc, kind, TableId::Field, row, FIELD_SIGNATURE)?;
    write_signature_text(alloc, view, bytes_of(&bytes), kind, limit, out)?;
    write_text(out, " ")?;
    let name = cells::text(view, TableId::Field, row, FIELD_NAME);
    Ok(write_name(out, NameKind::Dotted, name, limit)?)
}

/// Writes a text of a row that has one.
fn write_whole<W: fmt::Write, L: Limit<W>>(
    alloc: Global,
    view: &View<'_>,
    of: RowText,
    token: Token,
    limit: &L,
    out: &mut W,
) -> Result<(), TextError>
    requires first { 1 ≤ token.row }
    requires last { token.row ≤ row_count view.now token.table }
    requires there { has_text of token.table ≡ true }
    requires omitted { L.scopes ≡ Omitted }
    ensures { (model : Metadata) → IsModel view.now model → OnOk result (Wrote W.write_str_gives out.old (IsRowText of model token) out.new) }
{
    view.holds_one();
    match of {
        RowText::Name => write_row_name(alloc, view, token, limit, out),
        RowText::Declaration => match token.table {
            TableId::TypeDef => Ok(write_type_def_within(view, token.row, limit, out, DEPTH)?),
            TableId::Field => write_field(alloc, view, token.row, limit, out),
            TableId::MethodDef => write_method_within(alloc, view, token.row, limit, out),
            TableId::Property => write_property_within(alloc, view, token.row, limit, out),
            _ => unreachable!(),
        },
    }
}

/// Writes a text of a row into a buffer that is not longer than the limit, up to its length. Returns the length of the
/// text, or one more than the limit if it is longer than that.
fn write_first(
    alloc: Global,
    view: &View<'_>,
    of: RowText,
    token: Token,
    buffer: &mut [u8],
) -> Result<usize, TextError>
    requires first { 1 ≤ token.row }
    requires last { token.row ≤ row_count view.now token.table }
    requires there { has_text of token.table ≡ true }
    requires room { length buffer.old ≤ text_limit }
    ensures { (model : Metadata) → IsModel view.now model
        → IfOk result (λ len. (text : List ℕ) × IsRowText of model token text × HasText (text_limit + 1) buffer.old text buffer.new len) }
{
    let mut text = LimitedText { buffer, len: 0 };
    write_whole(alloc, view, of, token, &TextLimit, &mut text)?;
    Ok(text.len)
}

/// Writes a text of the row with a token into a buffer, up to its length (II.5.3, II.15.3, III.1.9). Returns the length of
/// the whole text; `TOO_LONG` if it is more than 65,536 bytes, and the buffer then has the first of these, or those that
/// fit; or [`NO_MEMORY`] if memory runs out, and what is in the buffer is then not specified.
///
/// Returns 0 if there is no such row, or it has no such text; the buffer is then unchanged. Its time is linear in the texts
/// that it reads, until 65,536 bytes are written, but for n log n for the parameters of a method.
pub fn write_row_text(
    alloc: Global,
    view: &View<'_>,
    of: RowText,
    number: u32,
    buffer: &mut [u8],
) -> usize
    ensures text { (token : TheToken) → IsTokenIn view.now number token → has_text of token.table ≡ true → result ≢ 2 ^ 64 - 2
        → (model : Metadata) → IsModel view.now model → IsTextWithin (IsRowText of model token) buffer.old buffer.new result }
    ensures none { ((token : TheToken) → IsTokenIn view.now number token → has_text of token.table ≡ false) → (result ≡ 0) × (buffer.new ≡ buffer.old) }
    ensures within { (result ≤ 2 ^ 16) ⊎ (2 ^ 64 - 2 ≤ result) }
{
    let Some(token) = Token::from_u32(number) else {
        return 0;
    };
    if token.row < 1 || token.row > view.count(token.table) || !has_text(of, token.table) {
        return 0;
    }
    let (first, _) = buffer.split_at_mut(buffer.len().min(TEXT_LIMIT));
    match write_first(alloc, view, of, token, first) {
        Ok(len) => len_within(len),
        Err(_) => NO_MEMORY,
    }
}
