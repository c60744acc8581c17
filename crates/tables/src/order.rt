ghost use Rattle.std.specs.Prelude.{◌≡◌, ◌<◌, ◌≤◌, ◌-◌, ◌↔◌, ℕ, Some, IsTrue, slice_index_or};
ghost use Rattle.table_schema.specs.Columns.{key_of};
ghost use Rattle.table_schema.specs.CellColumns.{cell_count};
ghost use Rattle.metadata.specs.Metadata.{count_in};
ghost use Rattle.metadata.specs.Cell.{Number as NumberCell};
ghost use Rattle.metadata.specs.KeyOrder.{key_number, key_in, IsKeyOrdered};
ghost use Rattle.tables.specs.Orders.{ReportsOrder};

use crate::column::column_at;
use crate::key_numbers::key_number;
use crate::{Row, Tables};
use table_schema::{ColumnKind, TableId, cell_count, column_of_cell, key};

/// Whether each table with a key is in order of it (II.22), by table number; `false` for tables without a
/// key. It does not allocate, and reads each key once.
pub fn find_order(tables: &Tables) -> [bool; 45]
    ensures { ReportsOrder tables.now result }
{
    table_schema::laws::tables_stand();
    let all = TableId::all();
    let mut in_order = [false; 45];
    for table_index in 0..all.len() {
        let table = all[table_index];
        in_order[table.number() as usize] = is_in_order(tables, table);
    }
    in_order
}

/// Whether a table is in order of its key.
fn is_in_order(tables: &Tables, table: TableId) -> bool
    ensures { (key : ℕ) → key_of table ≡ Some key → IsTrue result ↔ IsKeyOrdered tables.now table }
{
    match key(table) {
        Some(key) => never_fall(tables, table, key),
        None => false,
    }
}

/// Whether the key numbers of a table, in the cells of one column, never decrease.
fn never_fall(tables: &Tables, table: TableId, key: usize) -> bool
    requires { key_of table ≡ Some key }
    ensures { IsTrue result ↔ IsKeyOrdered tables.now table }
{
    for cell_index in 0..cell_count(table) {
        if column_of_cell(table, cell_index) == key && !never_falls(tables, table, cell_index) {
            return false;
        }
    }
    true
}

/// Whether the key numbers in one cell of a table's rows never decrease.
fn never_falls(tables: &Tables, table: TableId, cell_index: usize) -> bool
    requires { cell_index < cell_count table }
    ensures { IsTrue result ↔ ((row : ℕ) → 2 ≤ row → row ≤ count_in tables.now table
        → key_in tables.now table cell_index (row - 1) ≤ key_in tables.now table cell_index row) }
{
    let kind = column_at(table, cell_index).kind;
    let mut before = 0;
    for row in tables.rows(table) {
        let number = key_at(kind, row, cell_index);
        if number < before {
            return false;
        }
        before = number;
    }
    true
}

/// The key number of a row, by the index of its key cell.
#[tactic(auto, using(crate::proofs::CellCheckLemmas::got_said))]
fn key_at(kind: ColumnKind, row: &Row, cell_index: usize) -> u64
    ensures { result ≡ key_number kind (slice_index_or row.now cell_index (NumberCell 0)) }
{
    key_number(kind, row.as_slice().get(cell_index))
}
