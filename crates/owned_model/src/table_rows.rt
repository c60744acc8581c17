ghost use Rattle.std.specs.Prelude.{◌≡◌, ◌≤◌, [], IfOk, OnOk, length};
ghost use Rattle.table_schema.specs.declared.table.TableId.{TableId as Table};
ghost use Rattle.tables.specs.Said.{all_said};
ghost use Rattle.metadata.specs.Metadata.{Metadata, rows_of, row_of};
ghost use Rattle.metadata.specs.Model.{IsModel};
ghost use Rattle.opening.specs.Views.{row_count};
ghost use Rattle.owned_model.specs.Padded.{with_rows};

use crate::cell::load_cell;
use opening::View;
use std::alloc::{AllocError, Global};
use table_schema::{TableId, cell_count};
use tables::{Cell, Tables};

/// Loads the cells of a row.
fn load_row(alloc: Global, view: &View, table: TableId, row: u32) -> Result<Vec<Cell>, AllocError>
    requires first { 1 ≤ row }
    requires last { row ≤ row_count view.now table }
    ensures { (model : Metadata) → IsModel view.now model → IfOk result (λ cells. all_said cells.items ≡ row_of model table row) }
{
    metadata::laws::models_are_read();
    let count = cell_count(table);
    let mut cells = Vec::with_capacity(alloc, count)?;
    for column in 0..count {
        let cell = load_cell(alloc, view, table, row, column)?;
        cells.push(cell)?;
    }
    Ok(cells)
}

/// Adds the rows of a table to tables in which it has no rows.
fn load_rows(
    alloc: Global,
    view: &View,
    table: TableId,
    tables: &mut Tables,
) -> Result<(), AllocError>
    ensures { (model : Metadata) → IsModel view.now model → length tables.old.tables ≡ 38 → rows_of tables.old table ≡ []
        → OnOk result (tables.new ≡ with_rows tables.old table (rows_of model table)) }
{
    table_schema::laws::tables_stand();
    let count = view.count(table);
    tables.reserve(table, count as usize)?;
    for row in 0..count {
        let cells = load_row(alloc, view, table, row + 1)?;
        let Ok(()) = tables.push(table, cells) else {
            return Err(AllocError);
        };
    }
    Ok(())
}

/// Adds the rows of all tables to tables without rows.
pub fn load_tables(alloc: Global, view: &View, tables: &mut Tables) -> Result<(), AllocError>
    requires tables { length tables.old.tables ≡ 38 }
    requires empty { (table : Table) → rows_of tables.old table ≡ [] }
    ensures { (model : Metadata) → IsModel view.now model → OnOk result (tables.new ≡ record tables.old { tables = model.tables }) }
{
    metadata::laws::models_are_read();
    table_schema::laws::tables_stand();
    for table in TableId::all() {
        load_rows(alloc, view, *table, tables)?;
    }
    Ok(())
}
