ghost use Rattle.std.specs.Prelude.{◌≡◌, ◌<◌, ◌↔◌, ℕ, IsTrue, length};
ghost use Rattle.table_schema.specs.Columns.{columns_of, key_of};
ghost use Rattle.metadata.specs.RowRules.{IsInOrder};
ghost use Rattle.row_order.specs.Orders.{ReportsOrder};

use reading::Source;
use table_schema::{TableId, key};

/// Whether the keys of each table never decrease, by table number; `false` for tables without a key.
///
/// Each key is read at most twice: with its own row and with the next row.
pub fn find_order(source: &Source) -> [bool; 45]
    ensures { ReportsOrder source.now.source result }
{
    table_schema::laws::tables_stand();
    let tables = TableId::all();
    let mut in_order = [false; 45];
    for table_index in 0..tables.len() {
        let table = tables[table_index];
        in_order[table.number() as usize] = is_in_order(source, table);
    }
    in_order
}

/// Whether a table has a key column that never decreases.
fn is_in_order(source: &Source, table: TableId) -> bool
    ensures { (column : ℕ) → key_of table ≡ Some column → IsTrue result ↔ IsInOrder source.now.source table column }
{
    table_schema::laws::columns_stand();
    match key(table) {
        Some(key) => never_falls(source, table, key),
        None => false,
    }
}

/// Whether the numbers of a column never decrease.
fn never_falls(source: &Source, table: TableId, column: usize) -> bool
    requires { column < length (columns_of table) }
    ensures { IsTrue result ↔ IsInOrder source.now.source table column }
{
    source.column(table, column).never_falls()
}
