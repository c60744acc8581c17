ghost use Rattle.std.specs.Prelude.{ℕ, ◌≡◌, ◌≤◌, ◌<◌, length, IfSome, IfNone};
ghost use Rattle.table_schema.specs.declared.table.TableId.{TableId as Table};
ghost use Rattle.table_schema.specs.Columns.{columns_of};
ghost use Rattle.schema.specs.Sizes.{count_of};
ghost use Rattle.schema.specs.LocatedCells.{HasRow, HasCell};

use crate::Layout;
use table_schema::{TableId, columns};

/// A cell of a table (II.22).
#[derive(Clone, Copy, Debug, PartialEq, Eq)]
pub struct TableCell {
    /// The table.
    pub table: TableId,
    /// The row, counted from 1.
    pub row: u32,
    /// The column, counted from 0.
    pub column: usize,
}

/// The row of a table that has the byte at an offset.
fn row_at(layout: &Layout, table: TableId, offset: usize) -> Option<u32>
    ensures sound { IfSome result (λ row. HasRow layout.now table row offset) }
    ensures none { IfNone result ((row : ℕ) → HasRow layout.now table row offset → ⊥) }
{
    let start = layout.row_start(table, 1);
    let end = layout.row_start(table, layout.count(table) + 1);
    if offset < start || end <= offset {
        return None;
    }
    Some(((offset - start) / layout.row_width(table)) as u32 + 1)
}

/// The column of a row that has the byte at an offset.
fn column_at(layout: &Layout, table: TableId, row: u32, offset: usize) -> Option<usize>
    requires first { 1 ≤ row }
    requires last { row ≤ count_of layout.now table }
    ensures sound { IfSome result (λ column. HasCell layout.now table row column offset) }
    ensures none { IfNone result ((column : ℕ) → HasCell layout.now table row column offset → ⊥) }
{
    for column in 0..columns(table).len() {
        let start = layout.cell_start(table, row, column);
        if start <= offset && offset - start < layout.cell_width(table, column) {
            return Some(column);
        }
    }
    None
}

/// The cell of a table that has the byte at an offset.
fn cell_in(layout: &Layout, table: TableId, offset: usize) -> Option<TableCell>
    ensures table { IfSome result (λ cell. cell.table ≡ table) }
    ensures sound { IfSome result (λ cell. HasCell layout.now table cell.row cell.column offset) }
    ensures none { IfNone result ((row column : ℕ) → HasCell layout.now table row column offset → ⊥) }
{
    let row = row_at(layout, table, offset)?;
    let column = column_at(layout, table, row, offset)?;
    Some(TableCell { table, row, column })
}

/// The cell that has the byte at an offset, in bytes from the start of the table stream (II.24.2.6).
///
/// Its row and its column are those for which [`Layout::cell_start`] and [`Layout::cell_width`] give a range with the
/// offset. `None` if no cell has the byte: it is in the header of the stream, or follows the last table. It takes
/// constant time.
pub fn cell_at(layout: &Layout, offset: usize) -> Option<TableCell>
    ensures sound { IfSome result (λ cell. HasCell layout.now cell.table cell.row cell.column offset) }
    ensures none { IfNone result ((table : Table) (row column : ℕ) → HasCell layout.now table row column offset → ⊥) }
{
    table_schema::laws::tables_stand();
    for table in TableId::all() {
        if let Some(cell) = cell_in(layout, *table, offset) {
            return Some(cell);
        }
    }
    None
}
