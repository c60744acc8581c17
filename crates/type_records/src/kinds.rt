ghost use Rattle.std.specs.Prelude.{◌↔◌, IsTrue};
ghost use Rattle.tables.specs.Said.{all_said};
ghost use Rattle.type_records.specs.Kinds.{kinds_in, kinds_of, AreOfKinds};

use table_schema::{Column, ColumnKind, TableId, columns};
use tables::Cell;

/// Whether there is a cell of the right kind for each column except padding, and no other cell.
fn are_of_kinds(columns: &[Column], cells: &[Cell]) -> bool
    ensures { IsTrue result ↔ AreOfKinds (kinds_in columns.now) (all_said cells.now) }
{
    let [column, columns @ ..] = columns else {
        return cells.is_empty();
    };
    if column.kind == ColumnKind::Padding {
        return are_of_kinds(columns, cells);
    }
    match cells {
        [] => false,
        [cell, cells @ ..] => cell.is_of_kind(column.kind) && are_of_kinds(columns, cells),
    }
}

/// Whether the cells have the number and kinds of a table's rows. It does not allocate.
pub fn is_row_of(table: TableId, cells: &[Cell]) -> bool
    ensures { IsTrue result ↔ AreOfKinds (kinds_of table) (all_said cells.now) }
{
    are_of_kinds(columns(table), cells)
}
