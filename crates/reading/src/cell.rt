ghost use Rattle.std.specs.Prelude.{◌≡◌, ◌≤◌, ◌<◌, ◌⊎◌, ℕ, List, Option, Some, None, length};
ghost use Rattle.table_schema.specs.declared.token.Token.{Token as TheToken};
ghost use Rattle.table_schema.specs.Columns.{columns_of, column_at};
ghost use Rattle.table_schema.specs.CodedIndexes.{IsCoded};
ghost use Rattle.heap_entries.specs.Entries.{IsText, IsBlob, IsGuid};
ghost use Rattle.metadata.specs.Cell.{Cell, Ref};
ghost use Rattle.metadata.specs.Source.{rows_in, number_of};
ghost use Rattle.metadata.specs.Rows.{StandsIn};
ghost use Rattle.reading.specs.KnownStarts.{AreKnown};
ghost use Rattle.reading.specs.Cursors.{AreCursors};
ghost use Rattle.reading.specs.Shown.{Shows, ShowsBlob};

use crate::cell_ref::CellRef;
use crate::coded::named_by;
use crate::column::column_at;
use crate::known_starts::KnownRuns;
use crate::run_cursors::RunCursors;
use crate::runs_of::start;
use crate::source::Source;
use heap_entries::{Strings, blob, guid};
use table_schema::{Coded, ColumnKind, TableId, Token};

/// The cell that the number of a column stands for, if there is one.
#[inline]
pub fn cell_of<'a>(
    source: &Source<'a>,
    known: &KnownRuns,
    table: TableId,
    row: u32,
    column: usize,
) -> CellRef<'a>
    requires known { AreKnown source.now.source known.now }
    requires first { 1 ≤ row }
    requires last { row ≤ rows_in source.now.source table }
    requires column { column < length (columns_of table) }
    requires stands { ¬ (¬ ((cell : Cell) × StandsIn source.now.source table row column cell)) }
    ensures cell { (cell : Cell) → StandsIn source.now.source table row column cell → Shows (column_at table column).kind result cell }
    ensures blob { ShowsBlob source.now.source (number_of source.now.source table row column) result }
{
    let kind = column_at(table, column).kind;
    cell_of_kind(source, known, kind, table, row, column)
}

/// The same for a caller that knows the kind of the column, as a loop over its rows does.
///
/// It is compiled into its caller. A caller that passes a constant kind runs only what that kind needs.
#[inline(always)]
pub fn cell_of_kind<'a>(
    source: &Source<'a>,
    known: &KnownRuns,
    kind: ColumnKind,
    table: TableId,
    row: u32,
    column: usize,
) -> CellRef<'a>
    requires known { AreKnown source.now.source known.now }
    requires first { 1 ≤ row }
    requires last { row ≤ rows_in source.now.source table }
    requires column { column < length (columns_of table) }
    requires kind { kind ≡ (column_at table column).kind }
    requires stands { ¬ (¬ ((cell : Cell) × StandsIn source.now.source table row column cell)) }
    ensures cell { (cell : Cell) → StandsIn source.now.source table row column cell → Shows (column_at table column).kind result cell }
    ensures blob { ShowsBlob source.now.source (number_of source.now.source table row column) result }
{
    let number = source.number(table, row, column);
    match kind {
        ColumnKind::U8 | ColumnKind::U16 | ColumnKind::U32 => CellRef::Number(number),
        ColumnKind::Padding => unreachable!(),
        ColumnKind::Text => CellRef::Text(text_at(source.strings(), number)),
        ColumnKind::Guid => CellRef::Guid(guid_at(source.guids(), number)),
        ColumnKind::Blob => CellRef::Bytes(blob_at(source.blobs(), number)),
        ColumnKind::Signature(_) => CellRef::Sig(blob_at(source.blobs(), number)),
        ColumnKind::Row(table) => CellRef::Ref(reference(table, number)),
        ColumnKind::Coded(coded) => CellRef::Ref(coded_reference(coded, number)),
        ColumnKind::List(member) => {
            CellRef::Start(start(source, known, table, row, column, member))
        }
    }
}

/// The cell that the number of a column stands for, in a pass over the rows of a table with cursors for the runs.
#[inline]
pub fn cell_onward<'a>(
    source: &Source<'a>,
    known: &KnownRuns,
    cursors: &mut RunCursors,
    table: TableId,
    row: u32,
    column: usize,
) -> CellRef<'a>
    requires known { AreKnown source.now.source known.now }
    requires cursors { AreCursors source.now.source cursors.old }
    requires first { 1 ≤ row }
    requires last { row ≤ rows_in source.now.source table }
    requires column { column < length (columns_of table) }
    requires stands { ¬ (¬ ((cell : Cell) × StandsIn source.now.source table row column cell)) }
    ensures cursors { AreCursors source.now.source cursors.new }
    ensures cell { (cell : Cell) → StandsIn source.now.source table row column cell → Shows (column_at table column).kind result cell }
    ensures blob { ShowsBlob source.now.source (number_of source.now.source table row column) result }
{
    let kind = column_at(table, column).kind;
    match kind {
        ColumnKind::List(member) => {
            CellRef::Start(cursors.start(source, known, table, row, column, member))
        }
        _ => cell_of_kind(source, known, kind, table, row, column),
    }
}

/// The string at an index that has one.
#[inline(always)]
fn text_at<'a>(heap: &Strings<'a>, index: u32) -> &'a str
    requires { ¬ (¬ ((text : List ℕ) × IsText heap.now index text)) }
    ensures { (text : List ℕ) → IsText heap.now index text → result.now ≡ text }
{
    match heap.text(index) {
        Ok(text) => text,
        Err(_) => unreachable!(),
    }
}

/// The blob at an index that has one.
fn blob_at(heap: &[u8], index: u32) -> &[u8]
    requires { ¬ (¬ ((blob : List ℕ) × IsBlob heap.now index blob)) }
    ensures sound { IsBlob heap.now index result.now }
    ensures complete { (blob : List ℕ) → IsBlob heap.now index blob → result.now ≡ blob }
{
    match blob(heap, index) {
        Ok(blob) => blob,
        Err(_) => unreachable!(),
    }
}

/// The GUID at an index that has one.
fn guid_at(heap: &[u8], index: u32) -> Option<[u8; 16]>
    requires { ¬ (¬ ((guid : Option (List ℕ)) × IsGuid heap.now index guid)) }
    ensures { (guid : Option (List ℕ)) → IsGuid heap.now index guid → result ≡ guid }
{
    match guid(heap, index) {
        Ok(guid) => guid,
        Err(_) => unreachable!(),
    }
}

/// The row of a reference; `None` if the reference is null.
fn reference(table: TableId, row: u32) -> Option<Token>
    ensures null { row ≡ 0 → result ≡ None }
    ensures there { 1 ≤ row → result ≡ Some (record { table = table; row = row }) }
{
    if row == 0 {
        None
    } else {
        Some(Token { table, row })
    }
}

/// The row of a coded index with a known tag; `None` if the index is null.
fn coded_reference(coded: Coded, number: u32) -> Option<Token>
    requires { ¬ (¬ ((token : TheToken) × IsCoded coded number token.table token.row)) }
    ensures null { (token : TheToken) → IsCoded coded number token.table token.row → token.row ≡ 0 → result ≡ None }
    ensures there { (token : TheToken) → IsCoded coded number token.table token.row → 1 ≤ token.row → result ≡ Some token }
{
    match named_by(coded, number) {
        Some(token) => reference(token.table, token.row),
        None => unreachable!(),
    }
}
