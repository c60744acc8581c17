//! The texts that a C caller receives in a buffer.
ghost use Rattle.std.specs.Prelude.{◌≡◌, ◌≢◌, length, ◌≤◌, ◌<◌, ◌⊎◌, ◌^◌, ◌-◌, IfSome, IfNone, true, false, take, ◌/◌, ◌%◌, unwrap_or};
ghost use Rattle.c_texts.specs.Explained.{explanation_text};
ghost use Rattle.c_texts.specs.Texts.{counted, with_text, IsLenWithin, text_limit};
ghost use Rattle.c_texts.specs.SignatureTexts.{signature_text};
ghost use Rattle.c_texts.specs.RowTexts.{IsDeclared, IsTextWithin, has_declaration};
ghost use Rattle.clim_c.specs.Words.{Explained, RuleCode, number_of_code, as_read, braced_text, lower, Body, IsModel, Kind, Metadata, ShowsSignature, Sig, Signature, Table, cell_count, cell_in, column_at, column_of, row_count, table_number, IsRowName, TheToken, IsUserString, OnFalse, OnTrue, UserText, user_of, zero_padded};
ghost use Rattle.clim_c.specs.SignatureCells.{HasSignature};
ghost use Rattle.clim_c.specs.OpenRows.{IsOpenRow};

use crate::opened::seen;
use crate::view::ClimView;
use c_texts::{
    RowText, write_explanation, write_guid, write_row_text, write_signature_text, write_user_string,
};
use cli_faults::{code_of_number, explain};
use opening::{CellRef, TableId, View};
use std::alloc::Global;
use table_schema::{ColumnKind, SigKind, cell_count, column_of_cell, columns};

/// The high byte of the token of a user string (III.1.9).
const USER_STRINGS: u32 = 0x70;

/// The number of offsets that a token can have.
const OFFSETS: u32 = 1 << 24;

/// Writes the text that explains a rule into a buffer, up to its length, and returns the length of the whole text: the
/// number and the name of the rule, what is wrong, and in lines of their own the rule, its section, where the offset of
/// a fault points, and the usual cause. 0 if no rule has the number; the buffer is then unchanged.
#[unsafe(no_mangle)]
pub extern "C" fn clim_explain(code: u16, buffer: &mut [u8]) -> usize
    ensures known { (known : RuleCode) → number_of_code known ≡ code
        → (explained : Explained) × (explained.code ≡ known)
        × (buffer.new ≡ with_text buffer.old (explanation_text explained)) × (result ≡ counted (length (explanation_text explained))) }
    ensures none { ((known : RuleCode) → number_of_code known ≢ code) → (result ≡ 0) × (buffer.new ≡ buffer.old) }
{
    match code_of_number(code) {
        Some(code) => write_explanation(explain(code), buffer),
        None => 0,
    }
}

/// Writes the text of a GUID into a buffer, up to its length: 32 hexadecimal digits in lower case and four hyphens, in
/// braces (II.24.2.5). Returns 38, the length of the text.
#[unsafe(no_mangle)]
pub extern "C" fn clim_guid_text(guid: &[u8; 16], buffer: &mut [u8]) -> usize
    ensures bytes { buffer.new ≡ with_text buffer.old (braced_text lower (as_read guid.now)) }
    ensures length { result ≡ 38 }
{
    write_guid(guid, buffer)
}

/// The blob of a cell and the kind of its signature; `None` if the column has no signatures.
fn signature_at<'a>(
    seen: &View<'a>,
    table: TableId,
    row: u32,
    column: usize,
) -> Option<(&'a [u8], SigKind)>
    requires first { 1 ≤ row }
    requires last { row ≤ row_count seen.now table }
    requires column { column < cell_count table }
    ensures kind { IfSome result (λ found. (column_at table (column_of table column)).kind ≡ Signature found.1) }
    ensures shown { (model : Metadata) → IsModel seen.now model
        → IfSome result (λ found. ShowsSignature (Signature found.1) found.0.now (cell_in model table row column)) }
    ensures none { (model : Metadata) → IsModel seen.now model
        → IfNone result ((kind : Kind) → (column_at table (column_of table column)).kind ≢ Signature kind) }
{
    metadata::laws::models_are_read();
    let ColumnKind::Signature(kind) = columns(table)[column_of_cell(table, column)].kind else {
        return None;
    };
    match seen.cell(table, row, column) {
        CellRef::Sig(blob) => Some((blob, kind)),
        _ => None,
    }
}

/// Writes a signature in the notation of ILAsm into a buffer, up to its length, with tokens as the names of types (II.7.1,
/// II.15.3). Returns the length of the whole text, or `CLIM_TOO_LONG` if it is more than 65,536 bytes. Returns 0 if the
/// view is not open, or has no such row, or the column has no signatures; the buffer is then unchanged.
#[unsafe(no_mangle)]
pub extern "C" fn clim_signature_text(
    view: &ClimView,
    table: u8,
    row: u32,
    column: usize,
    buffer: &mut [u8],
) -> usize
    ensures text { view.now.is_open ≡ true → (model : Metadata) → IsModel view.now.root.now model → (known : Table) (kind : Kind)
        → table_number known ≡ table → HasSignature view.now.root.now known row column kind
        → (signature : Body) × (cell_in model known row column ≡ Sig signature)
        × (buffer.new ≡ with_text buffer.old (take text_limit (signature_text signature)))
        × IsLenWithin result (signature_text signature) }
    ensures within { (result ≤ 2 ^ 16) ⊎ (result ≡ 2 ^ 64 - 1) }
    ensures there { 0 < result → (view.now.is_open ≡ true)
        × ((known : Table) × (kind : Kind) × (table_number known ≡ table) × HasSignature view.now.root.now known row column kind) }
    ensures none { ((known : Table) (kind : Kind) → table_number known ≡ table → ¬ HasSignature view.now.root.now known row column kind)
        → (result ≡ 0) × (buffer.new ≡ buffer.old) }
    ensures closed { view.now.is_open ≡ false → (result ≡ 0) × (buffer.new ≡ buffer.old) }
{
    let (Some(table), Some(seen)) = (TableId::from_number(table), seen(view)) else {
        return 0;
    };
    if row < 1 || row > seen.count(table) || column >= cell_count(table) {
        return 0;
    }
    let Some((blob, kind)) = signature_at(&seen, table, row, column) else {
        return 0;
    };
    write_signature_text(blob, kind, buffer)
}

/// Writes the name of a row in the notation of ILAsm into a buffer, up to its length (II.5.3). Returns the length of the
/// whole name, `CLIM_TOO_LONG` if it is more than 65,536 bytes, or `CLIM_NO_MEMORY` if memory runs out. Returns 0 if the
/// view is not open, or has no such row; the buffer is then unchanged. `..` is the name of a row that has none.
#[unsafe(no_mangle)]
pub extern "C" fn clim_row_name(
    alloc: Global,
    view: &ClimView,
    token: u32,
    buffer: &mut [u8],
) -> usize
    ensures text { (known : TheToken) → IsOpenRow view.now token known → result ≢ 2 ^ 64 - 2 → (model : Metadata) → IsModel view.now.root.now model
        → IsTextWithin (IsRowName model known) buffer.old buffer.new result }
    ensures none { ((known : TheToken) → ¬ IsOpenRow view.now token known) → (result ≡ 0) × (buffer.new ≡ buffer.old) }
    ensures within { (result ≤ 2 ^ 16) ⊎ (2 ^ 64 - 2 ≤ result) }
{
    match seen(view) {
        Some(seen) => write_row_text(alloc, &seen, RowText::Name, token, buffer),
        None => 0,
    }
}

/// Writes the declaration of a type, a field, a method or a property in the notation of ILAsm into a buffer, up to its
/// length: of a type its full name (II.10.1), of a field its signature and its own name (II.16.1), and of a method (II.15.3)
/// or a property (II.17) its signature with its full name and the names of its parameters.
///
/// Returns what [`clim_row_name`] does, and 0 for a row of any other table too.
#[unsafe(no_mangle)]
pub extern "C" fn clim_declaration(
    alloc: Global,
    view: &ClimView,
    token: u32,
    buffer: &mut [u8],
) -> usize
    ensures text { (known : TheToken) → IsOpenRow view.now token known → has_declaration known.table ≡ true → result ≢ 2 ^ 64 - 2
        → (model : Metadata) → IsModel view.now.root.now model → IsTextWithin (IsDeclared model known.table known.row) buffer.old buffer.new result }
    ensures none { ((known : TheToken) → IsOpenRow view.now token known → has_declaration known.table ≡ false) → (result ≡ 0) × (buffer.new ≡ buffer.old) }
    ensures within { (result ≤ 2 ^ 16) ⊎ (2 ^ 64 - 2 ≤ result) }
{
    match seen(view) {
        Some(seen) => write_row_text(alloc, &seen, RowText::Declaration, token, buffer),
        None => 0,
    }
}

/// Writes the UTF-16 units of the user string that a token names, up to the length of `units` (II.24.2.4). The high byte
/// of the token is 0x70, and the others are the offset in `#US`, padded with zeros to a multiple of four.
///
/// `count` is the number of its units, and `flag` its last byte, or 256 if the string has no bytes. `true` if the view is
/// open and there is a user string. Otherwise nothing is written.
#[unsafe(no_mangle)]
pub extern "C" fn clim_user_string(
    view: &ClimView,
    token: u32,
    units: &mut [u16],
    count: &mut usize,
    flag: &mut u16,
) -> bool
    ensures sound { OnTrue result ((string : UserText) → IsUserString (zero_padded (user_of view.now.root.now)) (token % 2 ^ 24) string
        → (units.new ≡ with_text units.old string.units) × (count.new ≡ length string.units) × (flag.new ≡ unwrap_or string.flag 256)) }
    ensures there { OnTrue result ((view.now.is_open ≡ true) × (token / 2 ^ 24 ≡ 0x70)
        × ((string : UserText) × IsUserString (zero_padded (user_of view.now.root.now)) (token % 2 ^ 24) string)) }
    ensures complete { view.now.is_open ≡ true → token / 2 ^ 24 ≡ 0x70
        → (string : UserText) → IsUserString (zero_padded (user_of view.now.root.now)) (token % 2 ^ 24) string → result ≡ true }
    ensures same { OnFalse result ((units.new ≡ units.old) × (count.new ≡ count.old) × (flag.new ≡ flag.old)) }
{
    let Some(seen) = seen(view) else {
        return false;
    };
    if token / OFFSETS != USER_STRINGS {
        return false;
    }
    let offset = (token % OFFSETS) as usize;
    let Some(found) = write_user_string(seen.user(), offset, units) else {
        return false;
    };
    *count = found.count;
    *flag = found.flag;
    true
}
