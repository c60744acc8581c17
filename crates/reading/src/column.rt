ghost use Rattle.std.specs.Prelude.{◌≡◌, ◌<◌, length};
ghost use Rattle.table_schema.specs.Columns.{columns_of, column_at};

use table_schema::{Column, TableId, columns};

/// The column with this index.
pub fn column_at(table: TableId, index: usize) -> Column
    requires { index < length (columns_of table) }
    ensures { result ≡ column_at table index }
{
    columns(table)[index]
}
