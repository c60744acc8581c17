ghost use Rattle.std.specs.Prelude.{◌≡◌, ◌≤◌, ◌<◌, ◌+◌, OnOk, IfOk, List, drop, length};
ghost use Rattle.table_schema.specs.Columns.{columns_of, column_at};
ghost use Rattle.table_schema.specs.CellColumns.{is_padding, cell_count};
ghost use Rattle.metadata.specs.Cell.{Cell as Says};
ghost use Rattle.metadata.specs.Metadata.{Metadata, rows_of, row_of, cell_in};
ghost use Rattle.metadata.specs.Valid.{kind_at};
ghost use Rattle.root_writer.specs.Numbers.{cell_number, numbers};
ghost use Rattle.reading.specs.Shown.{Shows};
ghost use Rattle.root_writer.specs.Numbered.{CanBeNumbered, flat};
ghost use Rattle.table_schema.specs.Tables.{tables as all_tables};
ghost use Rattle.cell_numbering.specs.CellIndexes.{IsCellIndexOf};
ghost use Rattle.cell_numbering.specs.HeapUses.{AreIndexes, IsInNoHeap};
ghost use Rattle.cell_numbering.specs.PlainColumns.{ArePlain};
ghost use Rattle.cell_numbering.specs.NumbersSoFar.{SoFar, no_pools, none_numbered, with_cell, with_next_cell, with_row, with_rows, with_tables};

use crate::numbers_so_far::{Indexes, NumbersSoFar};
use crate::plain_columns::{PlainColumn, plain_columns};
use metadata_source::{ReadCells, kind_of};
use reading::{CellRef, RunCursors};
use root_writer::row_number;
use std::alloc::{AllocError, Global};
use table_schema::{ColumnKind, TableId, columns};

/// The number of a cell that is in no heap, in a column of a kind.
fn plain_number(kind: ColumnKind, seen: CellRef) -> u32
    requires { ¬ (¬ ((cell : Says) × Shows kind seen cell × CanBeNumbered cell × IsInNoHeap cell)) }
    ensures { (cell : Says) → Shows kind seen.entry cell → result ≡ cell_number no_pools kind cell }
{
    match seen {
        CellRef::Number(number) => number,
        CellRef::Ref(None) => 0,
        CellRef::Ref(Some(token)) => row_number(kind, token),
        CellRef::Start(row) => row,
        CellRef::Text(_) => unreachable!(),
        CellRef::Guid(_) => unreachable!(),
        CellRef::Bytes(_) => unreachable!(),
        CellRef::Sig(_) => unreachable!(),
    }
}

/// Adds the number of a cell. For a text, a GUID, a blob or a signature it is the next index, and no heap is read.
fn put_cell<S: ReadCells>(
    so_far: &mut NumbersSoFar,
    indexes: Indexes,
    source: &S,
    cursors: &mut RunCursors,
    plain: &[Option<PlainColumn<'_>>],
    table: TableId,
    row: u32,
    cell_index: usize,
) -> Result<(), AllocError>
    requires cursors { S.follow source.now cursors.old }
    requires plain { ArePlain (S.row_count source.now table) (S.shows source.now) table plain.now }
    requires first { 1 ≤ row }
    requires last { row ≤ S.row_count source.now table }
    requires cell_index { cell_index < cell_count table }
    ensures cursors { S.follow source.now cursors.new }
    ensures ok { (model : Metadata) → S.shows source.now model
        → OnOk result (so_far.new ≡ with_cell indexes.entry (kind_at table cell_index) (cell_in model table row cell_index) so_far.old) }
{
    root_writer::laws::cells_can_be_numbered();
    source.holds_one();
    if let Some(column) = &plain[cell_index] {
        return so_far.put_number(column.number(row));
    }
    let kind = kind_of(table, cell_index);
    match kind {
        ColumnKind::Text => so_far.put_text(indexes.texts),
        ColumnKind::Guid => so_far.put_guid(indexes.guids),
        ColumnKind::Blob => so_far.put_blob(indexes.blobs),
        ColumnKind::Signature(_) => so_far.put_blob(indexes.blobs),
        _ => {
            let seen = source.cell_onward(cursors, table, row, cell_index);
            so_far.put_number(plain_number(kind, seen))
        }
    }
}

/// Adds the number of the column at an index, or 0 if it has no cell, and returns the index of the next cell.
fn put_next<S: ReadCells>(
    so_far: &mut NumbersSoFar,
    indexes: Indexes,
    source: &S,
    cursors: &mut RunCursors,
    plain: &[Option<PlainColumn<'_>>],
    table: TableId,
    row: u32,
    index: usize,
    cell_index: usize,
) -> Result<usize, AllocError>
    requires cursors { S.follow source.now cursors.old }
    requires plain { ArePlain (S.row_count source.now table) (S.shows source.now) table plain.now }
    requires first { 1 ≤ row }
    requires last { row ≤ S.row_count source.now table }
    requires column { index < length (columns_of table) }
    requires cell_index { IsCellIndexOf table index cell_index }
    ensures cursors { S.follow source.now cursors.new }
    ensures ok { (model : Metadata) → S.shows source.now model → (tail : List Says → SoFar → SoFar)
        → IfOk result (λ behind. with_next_cell (is_padding (column_at table index).kind) (with_cell indexes.entry (column_at table index).kind)
        tail (drop cell_index (row_of model table row)) so_far.old ≡ tail (drop behind (row_of model table row)) so_far.new) }
    ensures cell_index { IfOk result (IsCellIndexOf table (index + 1)) }
{
    source.holds_one();
    table_schema::laws::columns_stand();
    match columns(table)[index].kind {
        ColumnKind::Padding => {
            so_far.put_number(0)?;
            Ok(cell_index)
        }
        _ => {
            put_cell(
                so_far, indexes, source, cursors, plain, table, row, cell_index,
            )?;
            Ok(cell_index + 1)
        }
    }
}

/// Adds the numbers of a row, one per column.
fn put_row<S: ReadCells>(
    so_far: &mut NumbersSoFar,
    indexes: Indexes,
    source: &S,
    cursors: &mut RunCursors,
    plain: &[Option<PlainColumn<'_>>],
    table: TableId,
    row: u32,
) -> Result<(), AllocError>
    requires cursors { S.follow source.now cursors.old }
    requires plain { ArePlain (S.row_count source.now table) (S.shows source.now) table plain.now }
    requires first { 1 ≤ row }
    requires last { row ≤ S.row_count source.now table }
    ensures cursors { S.follow source.now cursors.new }
    ensures ok { (model : Metadata) → S.shows source.now model
        → OnOk result (so_far.new ≡ with_row indexes.entry (columns_of table) (row_of model table row) so_far.old) }
{
    let mut cell_index = 0;
    for index in 0..columns(table).len() {
        cell_index = put_next(
            so_far, indexes, source, cursors, plain, table, row, index, cell_index,
        )?;
    }
    Ok(())
}

/// Adds the numbers of the rows of a table.
fn put_rows<S: ReadCells>(
    alloc: Global,
    so_far: &mut NumbersSoFar,
    indexes: Indexes,
    source: &S,
    table: TableId,
) -> Result<(), AllocError>
    ensures { (model : Metadata) → S.shows source.now model
        → OnOk result (so_far.new ≡ with_rows indexes.entry (columns_of table) (rows_of model table) so_far.old) }
{
    source.holds_one();
    let count = source.count(table);
    if count == 0 {
        return Ok(());
    }
    let plain = plain_columns(alloc, source, table)?;
    let mut cursors = source.run_cursors();
    for row in 0..count {
        put_row(
            so_far,
            indexes,
            source,
            &mut cursors,
            &plain,
            table,
            row + 1,
        )?;
    }
    Ok(())
}

/// The number of numbers in the rows of all tables, one per column.
fn count_numbers<S: ReadCells>(source: &S) -> usize {
    table_schema::laws::columns_stand();
    let mut count = 0;
    for table in TableId::all() {
        count += columns(*table).len() * source.count(*table) as usize;
    }
    count
}

/// Adds the numbers of the rows of all tables.
fn put_tables<S: ReadCells>(
    alloc: Global,
    so_far: &mut NumbersSoFar,
    indexes: Indexes,
    source: &S,
) -> Result<(), AllocError>
    ensures { (model : Metadata) → S.shows source.now model
        → OnOk result (so_far.new ≡ with_tables indexes.entry model all_tables so_far.old) }
{
    table_schema::laws::tables_stand();
    for table in TableId::all() {
        put_rows(alloc, so_far, indexes, source, *table)?;
    }
    Ok(())
}

/// The numbers of all cells, by table, row and column, if the indexes are those of the values that all cells use.
pub fn numbers_of<S: ReadCells>(
    alloc: Global,
    indexes: Indexes,
    source: &S,
) -> Result<Vec<u32>, AllocError>
    ensures { (model : Metadata) → S.shows source.now model → AreIndexes model indexes.entry
        → IfOk result (λ found. found.items ≡ flat (numbers model)) }
{
    source.holds_one();
    table_schema::laws::tables_stand();
    let mut so_far = NumbersSoFar::new(alloc, count_numbers(source))?;
    put_tables(alloc, &mut so_far, indexes, source)?;
    Ok(so_far.into_numbers())
}
