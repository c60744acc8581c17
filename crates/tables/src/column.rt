ghost use Rattle.std.specs.Prelude.{◌≡◌, ◌<◌};
ghost use Rattle.table_schema.specs.CellColumns.{cell_count};
ghost use Rattle.metadata.specs.Valid.{kind_at, nullable_at};

use table_schema::{Column, TableId, column_of_cell, columns};

/// The column of the cell with this index in a row.
pub fn column_at(table: TableId, cell_index: usize) -> Column
    requires { cell_index < cell_count table }
    ensures kind { result.kind ≡ kind_at table cell_index }
    ensures nullable { result.nullable ≡ nullable_at table cell_index }
{
    columns(table)[column_of_cell(table, cell_index)]
}
