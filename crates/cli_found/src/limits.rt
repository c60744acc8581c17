//! The columns and the numbers of cells, and what rules compare these with (II.22).
ghost use Rattle.std.specs.Prelude.{◌≡◌, ◌-◌, ◌/◌, ◌%◌, ◌^◌, Option};
ghost use Rattle.cli_found.specs.Words.{tag_bits};
ghost use Rattle.cli_found.specs.Found.{coded_of, column_number, earlier_limit, heap_limit, is_counted, kind_limit, kind_of, limit_of, nested_limit, number_in, rows_limit};
ghost use Rattle.cli_found.specs.Kept.{shown_limit};

use cli_faults::FaultCode;
use cli_lines::Name;
use cli_lines::Value::{self, Number, Plain};
use reading::Source;
use root::Kind;
use schema::TableCell;
use table_schema::{Coded, Column, ColumnKind, TableId, columns};

/// The number of bytes of a GUID.
const GUID_SIZE: usize = 16;

/// What a rule compares a number with.
#[derive(Clone, Copy)]
pub(crate) struct Limit<'a> {
    /// What comes before the value, in a line of text.
    pub before: &'a str,
    /// The member of the value.
    pub name: Name,
    /// The value that says what has the limit.
    pub of: Value<'a>,
    /// The limit.
    pub limit: u64,
    /// What it counts, after a space.
    pub unit: &'a str,
}

/// What comes before a value, its member and itself, its limit, and what that counts.
macro_rules! limit {
    ($before:literal; $name:ident; $of:expr; $limit:expr; $unit:expr) => {
        Some(Limit { before: $before, name: Name::$name, of: $of, limit: $limit, unit: $unit })
    };
}

/// The kind of the column of a cell.
pub fn kind_of(cell: TableCell) -> ColumnKind
    ensures { result ≡ kind_of cell }
{
    columns(cell.table)
        .get(cell.column)
        .map_or(ColumnKind::U8, |column| column.kind)
}

/// The coded index of a column of a kind, if it is one.
pub(crate) fn coded_of(kind: ColumnKind) -> Option<Coded>
    ensures { result ≡ coded_of kind }
{
    match kind {
        ColumnKind::Coded(coded) => Some(coded),
        _ => None,
    }
}

/// The number in a cell, if the tables have it.
pub(crate) fn number_in(source: &Source<'_>, cell: TableCell) -> Option<u32>
    ensures { result ≡ number_in source.now.source cell }
{
    if cell.row < 1
        || cell.row > source.count(cell.table)
        || cell.column >= columns(cell.table).len()
    {
        return None;
    }
    Some(source.number(cell.table, cell.row, cell.column))
}

/// The size of a heap, in items of a unit.
fn heap_limit(heap: Kind, size: usize, unit: &'static str) -> Option<Limit<'static>>
    ensures { shown_limit result ≡ heap_limit heap size unit.now }
{
    limit![""; Stream; Plain(heap.name()); size as u64; unit]
}

/// The number of rows of a table.
fn rows_limit(source: &Source<'_>, table: TableId) -> Option<Limit<'static>>
    ensures { shown_limit result ≡ rows_limit source.now.source table }
{
    limit![""; Table; Plain(table.name()); u64::from(source.count(table)); " rows"]
}

/// The tag of a coded index: its low bits (II.24.2.6).
pub(crate) fn tag_of(coded: Coded, number: u64) -> u64
    ensures { result ≡ number % 2 ^ tag_bits coded }
{
    number % (1 << coded.tag_bits())
}

/// The row of a coded index: its other bits.
pub(crate) fn row_of(coded: Coded, number: u64) -> u64
    ensures { result ≡ number / 2 ^ tag_bits coded }
{
    number >> coded.tag_bits()
}

/// The size of what a number in a column of a kind refers to.
fn kind_limit(source: &Source<'_>, kind: ColumnKind, number: u32) -> Option<Limit<'static>>
    ensures { shown_limit result ≡ kind_limit source.now.source kind number }
{
    match kind {
        ColumnKind::Text => heap_limit(Kind::Strings, source.texts().len(), " bytes"),
        ColumnKind::Guid => heap_limit(Kind::Guids, source.guids().len() / GUID_SIZE, " GUIDs"),
        ColumnKind::Blob | ColumnKind::Signature(_) => {
            heap_limit(Kind::Blobs, source.blobs().len(), " bytes")
        }
        ColumnKind::Row(table) | ColumnKind::List(table) => rows_limit(source, table),
        ColumnKind::Coded(coded) => {
            let tag = tag_of(coded, u64::from(number));
            match coded.tables().get(tag as usize) {
                Some(Some(table)) => rows_limit(source, *table),
                _ => None,
            }
        }
        ColumnKind::U8 | ColumnKind::U16 | ColumnKind::U32 | ColumnKind::Padding => None,
    }
}

/// The number in the same column of the row before.
fn earlier_limit(source: &Source<'_>, cell: TableCell) -> Option<Limit<'static>>
    ensures { shown_limit result ≡ earlier_limit source.now.source cell }
{
    let row = cell.row.saturating_sub(1);
    let number = number_in(source, TableCell { row, ..cell })?;
    limit!["row "; Row; Number(u64::from(row)); u64::from(number); ""]
}

/// The number in the column NestedClass of the same row (II.22.32).
fn nested_limit(source: &Source<'_>, cell: TableCell) -> Option<Limit<'static>>
    ensures { shown_limit result ≡ nested_limit source.now.source cell }
{
    let number = number_in(source, TableCell { column: 0, ..cell })?;
    limit![""; Column; Plain("NestedClass"); u64::from(number); ""]
}

/// What a rule compares the number in a cell with.
pub(crate) fn limit_of(
    rule: FaultCode,
    source: &Source<'_>,
    cell: TableCell,
    number: u32,
) -> Option<Limit<'static>>
    ensures { shown_limit result ≡ limit_of rule source.now.source cell number }
{
    match rule {
        FaultCode::NotSorted | FaultCode::BadRun => earlier_limit(source, cell),
        FaultCode::NestedOrder => nested_limit(source, cell),
        FaultCode::NoOwner => rows_limit(source, cell.table),
        _ => kind_limit(source, kind_of(cell), number),
    }
}

/// Whether a column is one of the standard's, and no padding (II.22.9).
fn is_counted(column: &Column) -> bool
    ensures { result ≡ is_counted column.now }
{
    !matches!(column.kind, ColumnKind::Padding)
}

/// The number of the column of a cell, from 0. Padding has none, and is not counted.
#[tactic(auto, using(std::proofs::lemmas::List::take_min))]
pub fn column_number(cell: TableCell) -> usize
    ensures { result ≡ column_number cell }
{
    let columns = columns(cell.table);
    let (before, _) = columns.split_at(cell.column.min(columns.len()));
    before.iter().filter(|column| is_counted(column)).count()
}
