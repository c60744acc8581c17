ghost use Rattle.std.specs.Prelude.{◌≡◌, ◌<◌, ℕ, false, length};
ghost use Rattle.table_schema.specs.declared.table.TableId.{TableId as Table};
ghost use Rattle.table_schema.specs.Columns.{columns_of, column_at};
ghost use Rattle.table_schema.specs.CellColumns.{is_padding, cell_count, column_of};

use crate::column_lists::columns;
use crate::table::TableId;

/// The number of cells of a row: one for each column, except the padding of Constant (II.22.9).
#[tactic(auto, unfolding(crate::specs::CellColumns::cell_columns))]
pub fn cell_count(table: TableId) -> usize
    ensures { result ≡ cell_count table }
{
    match table {
        TableId::Constant => 3,
        _ => columns(table).len(),
    }
}

/// The column of a cell. `cell` is the index of the cell in its row, from 0.
#[tactic(auto, unfolding(crate::specs::CellColumns::cell_columns))]
pub fn column_of_cell(table: TableId, cell: usize) -> usize
    requires { cell < cell_count table }
    ensures value { result ≡ column_of table cell }
    ensures within { result < length (columns_of table) }
{
    match table {
        TableId::Constant => { if cell == 0 { 0 } else { cell + 1 } }
        _ => cell,
    }
}

/// Each cell has a column, which is not padding. Each column that is not padding has a cell.
#[tactic(auto, using(crate::proofs::CellColumnLemmas::cell_column, crate::proofs::CellColumnLemmas::column_cell))]
pub fn cells_have_columns()
    ensures column { (table : Table) (cell : ℕ) → cell < cell_count table
        → (column_of table cell < length (columns_of table)) × (is_padding (column_at table (column_of table cell)).kind ≡ false) }
    ensures cell { (table : Table) (column : ℕ) → column < length (columns_of table) → is_padding (column_at table column).kind ≡ false
        → (cell : ℕ) × (cell < cell_count table) × (column_of table cell ≡ column) }
{}
