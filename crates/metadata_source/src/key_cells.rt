ghost use Rattle.std.specs.Prelude.{◌≡◌, ◌<◌, IsSome};
ghost use Rattle.table_schema.specs.Columns.{key_of};
ghost use Rattle.table_schema.specs.CellColumns.{cell_count};
ghost use Rattle.metadata.specs.Lookups.{IsKeyCell};
ghost use Rattle.metadata.specs.Valid.{kind_at};

use table_schema::{ColumnKind, TableId, cell_count, column_of_cell, columns, key};

/// The index of a table's key among the cells of its rows.
pub fn key_cell(table: TableId) -> usize
    requires { IsSome (key_of table) }
    ensures { IsKeyCell table result }
{
    table_schema::laws::cells_have_columns();
    table_schema::laws::columns_stand();
    let key = key(table);
    for cell in 0..cell_count(table) {
        if key == Some(column_of_cell(table, cell)) {
            return cell;
        }
    }
    unreachable!()
}

/// The kind of the column of a cell, by its index in a row.
pub fn kind_of(table: TableId, cell: usize) -> ColumnKind
    requires { cell < cell_count table }
    ensures { result ≡ kind_at table cell }
{
    columns(table)[column_of_cell(table, cell)].kind
}
