ghost use Rattle.std.specs.Prelude.{◌≡◌, ◌≤◌, ◌<◌, IfOk};
ghost use Rattle.table_schema.specs.CellColumns.{cell_count};
ghost use Rattle.cell_numbering.specs.IndexColumns.{AreIndexColumns};

use metadata_source::ReadCells;
use rows::ColumnNumbers;
use std::alloc::{AllocError, Global};
use table_schema::{TableId, cell_count};

/// For each cell of a table's rows the numbers in its column, if the cells are read from a root.
pub fn index_columns<S: ReadCells>(
    alloc: Global,
    source: &S,
    table: TableId,
) -> Result<Vec<Option<ColumnNumbers<'_>>>, AllocError>
    ensures { IfOk result (λ columns. AreIndexColumns (S.heap_index source.now) (S.row_count source.now table) table columns.items) }
{
    let mut columns = Vec::with_capacity(alloc, cell_count(table))?;
    for cell_index in 0..cell_count(table) {
        columns.push(source.column_numbers(table, cell_index))?;
    }
    Ok(columns)
}

/// The index of a cell's value, as [`ReadCells::index_in_heap`] returns it.
pub fn index_at<S: ReadCells>(
    source: &S,
    columns: &[Option<ColumnNumbers<'_>>],
    table: TableId,
    row: u32,
    cell_index: usize,
) -> Option<u32>
    requires columns { AreIndexColumns (S.heap_index source.now) (S.row_count source.now table) table columns.now }
    requires first { 1 ≤ row }
    requires last { row ≤ S.row_count source.now table }
    requires cell_index { cell_index < cell_count table }
    ensures { result ≡ S.heap_index source.now (record { table = table; row = row; cell_index = cell_index }) }
{
    match &columns[cell_index] {
        Some(numbers) => Some(numbers.number(row)),
        None => source.index_in_heap(table, row, cell_index),
    }
}
