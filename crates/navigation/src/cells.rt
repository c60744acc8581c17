//! Cells by the kind of their column, of anything that holds a metadata.
//!
//! Rows count from 1. A cell is named by its index in its row, from 0 on.
ghost use Rattle.std.specs.Prelude.{◌≡◌, ◌≤◌, ◌<◌, IfSome, None, Some, false};
ghost use Rattle.table_schema.specs.declared.column.ColumnKind.TheVariants as kind;
ghost use Rattle.table_schema.specs.CellColumns.{cell_count};
ghost use Rattle.metadata.specs.Cell.{Number, Text, Ref};
ghost use Rattle.metadata.specs.Kinds.{IsOfKind};
ghost use Rattle.metadata.specs.Metadata.{Metadata, cell_in};
ghost use Rattle.metadata.specs.Valid.{kind_at, nullable_at};

use metadata_source::ReadCells;
use reading::CellRef;
use table_schema::{TableId, Token};

/// The row that a cell names, in a column of references; it exists. `None` is null.
pub fn reference<S: ReadCells>(source: &S, table: TableId, row: u32, cell: usize) -> Option<Token>
    requires first { 1 ≤ row }
    requires last { row ≤ S.row_count source.now table }
    requires cell { cell < cell_count table }
    requires kind { IsOfKind (kind_at table cell) (Ref None) }
    ensures value { (model : Metadata) → S.shows source.now model → cell_in model table row cell ≡ Ref result }
    ensures there { IfSome result (λ of. (1 ≤ of.row) × (of.row ≤ S.row_count source.now of.table)) }
{
    source.holds_one();
    match source.cell(table, row, cell) {
        CellRef::Ref(reference) => reference,
        _ => unreachable!(),
    }
}

/// The row of a table that a cell names, in a column of these rows that allows no null.
pub fn target<S: ReadCells>(source: &S, of: TableId, table: TableId, row: u32, cell: usize) -> u32
    requires first { 1 ≤ row }
    requires last { row ≤ S.row_count source.now table }
    requires cell { cell < cell_count table }
    requires kind { kind_at table cell ≡ kind.Row of }
    requires named { nullable_at table cell ≡ false }
    ensures value { (model : Metadata) → S.shows source.now model → cell_in model table row cell ≡ Ref (Some (record { table = of; row = result })) }
    ensures first { 1 ≤ result }
    ensures last { result ≤ S.row_count source.now of }
{
    source.holds_one();
    match reference(source, table, row, cell) {
        Some(found) => found.row,
        None => unreachable!(),
    }
}

/// A number, in a column of numbers.
pub fn number<S: ReadCells>(source: &S, table: TableId, row: u32, cell: usize) -> u32
    requires first { 1 ≤ row }
    requires last { row ≤ S.row_count source.now table }
    requires cell { cell < cell_count table }
    requires kind { IsOfKind (kind_at table cell) (Number 0) }
    ensures { (model : Metadata) → S.shows source.now model → cell_in model table row cell ≡ Number result }
{
    source.holds_one();
    match source.cell(table, row, cell) {
        CellRef::Number(number) => number,
        _ => unreachable!(),
    }
}

/// A text, in a column of texts.
pub fn text<S: ReadCells>(source: &S, table: TableId, row: u32, cell: usize) -> &str
    requires first { 1 ≤ row }
    requires last { row ≤ S.row_count source.now table }
    requires cell { cell < cell_count table }
    requires kind { kind_at table cell ≡ kind.Text }
    ensures { (model : Metadata) → S.shows source.now model → cell_in model table row cell ≡ Text result.now }
{
    source.holds_one();
    match source.cell(table, row, cell) {
        CellRef::Text(text) => text,
        _ => unreachable!(),
    }
}
