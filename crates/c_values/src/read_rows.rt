ghost use Rattle.std.specs.Prelude.{◌≡◌, ℕ, IfOk, IfErr, OnOk};
ghost use Rattle.table_schema.specs.declared.table.TableId.{TableId as Table};
ghost use Rattle.table_schema.specs.Tables.{table_number};
ghost use Rattle.tables.specs.Said.{all_said};
ghost use Rattle.tables.specs.Push.{with_row};
ghost use Rattle.metadata.specs.Metadata.{count_in};
ghost use Rattle.c_values.specs.Cells.{AreCells};
ghost use Rattle.c_values.specs.Given.{IsGiven, IsRow, TableRow};
ghost use Rattle.c_values.specs.Refused.{IsFirstBadCell, IsFirstBadRow, IsOfBadRow, MatchNoRoot, row_after};

use crate::cell::ClimCell;
use crate::no_root::NoRoot;
use crate::read_cell::{Position, read_cell};
use crate::row::ClimRow;
use metadata::Refusal;
use packed::FaultCode;
use std::alloc::Global;
use table_schema::TableId;
use tables::{Cell, Tables};

/// The number of a row after others of its table; at most 2^32 - 1.
fn row_number(count: usize) -> u32
    ensures { result ≡ row_after count }
{
    count.saturating_add(1).min(u32::MAX as usize) as u32
}

/// Reads the cells of a row of a table.
fn read_row(
    alloc: Global,
    given: &[ClimCell<'_>],
    table: TableId,
    row: u32,
) -> Result<Vec<Cell>, NoRoot>
    ensures read { IfOk result (λ cells. AreCells table 0 given.now (all_said cells.items)) }
    ensures refused { IfErr result (MatchNoRoot (IsFirstBadCell table row given.now) ⊥) }
{
    let mut cells = Vec::with_capacity(alloc, given.len())?;
    for column in 0..given.len() {
        let cell = read_cell(alloc, &given[column], Position { table, row, column })?;
        cells.push(cell)?;
    }
    Ok(cells)
}

/// Adds a row at the end of its table.
fn add_row(alloc: Global, given: &ClimRow<'_>, tables: &mut Tables) -> Result<(), NoRoot>
    ensures added { OnOk result ((row : TableRow) × IsRow given.now row × (tables.new ≡ with_row tables.old row.table row.cells)) }
    ensures refused { (row : ℕ) → ((table : Table) → table_number table ≡ given.now.table → row ≡ row_after (count_in tables.old table))
        → IfErr result (MatchNoRoot (IsOfBadRow row given.now) ⊥) }
{
    let Some(table) = TableId::from_number(given.table) else {
        return Err(NoRoot::Refused(Refusal::new(FaultCode::BadCell, given.table, 0, 0)));
    };
    let row = row_number(tables.count(table));
    let cells = read_row(alloc, given.cells, table, row)?;
    let Ok(()) = tables.push(table, cells) else {
        return Err(NoRoot::Memory);
    };
    Ok(())
}

/// Reads rows into the tables that they name, in order.
pub fn read_tables(
    alloc: Global,
    version: &str,
    user: &[u8],
    rows: &[ClimRow<'_>],
) -> Result<Tables, NoRoot>
    ensures given { IfOk result (λ tables. IsGiven version.now user.now rows.now tables) }
    ensures refused { IfErr result (MatchNoRoot (IsFirstBadRow rows.now) ⊥) }
{
    table_schema::laws::tables_stand();
    tables::laws::rows_are_added();
    let mut tables = Tables::new(alloc, version)?;
    tables.set_user(user.to_vec(alloc)?);
    for row in rows {
        add_row(alloc, row, &mut tables)?;
    }
    Ok(tables)
}
