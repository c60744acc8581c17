ghost use Rattle.std.specs.Prelude.{◌≡◌, ◌≤◌, ◌<◌, ◌↔◌, IsTrue, length};
ghost use Rattle.packed.specs.Rule.{Reports, rules_from};
ghost use Rattle.table_schema.specs.CellColumns.{cell_count};
ghost use Rattle.tables.specs.Said.{said, all_said};
ghost use Rattle.metadata.specs.Kinds.{IsOfKind, IsStorable};
ghost use Rattle.metadata.specs.Metadata.{row_of, count_in, cell_in};
ghost use Rattle.metadata.specs.Valid.{MayRefer, IsWithinMembers};
ghost use Rattle.metadata.specs.Refusals.{refusals_of_cell, refusals_of_row, refusals_by_row};

use crate::Cell;
use crate::column::column_at;
use crate::counted::Counted;
use metadata::Refusal;
use packed::FaultCode;
use table_schema::{ColumnKind, TableId, cell_count};

/// Checks that each row has the cells of its table, and that each cell fits its column (II.22). The content
/// of signatures is checked later.
#[tactic(auto, using(packed::proofs::RuleLemmas::before_none, packed::proofs::RuleLemmas::before_more, packed::proofs::RuleLemmas::before_all, packed::proofs::RuleLemmas::before_fails), unfolding(metadata::specs::Refusals::refusals_by_row, metadata::specs::Refusals::refusals_by_row_at))]
pub fn check_cells(counted: &Counted) -> Result<(), Refusal>
    ensures { Reports (refusals_by_row counted.now (refusals_of_row counted.now)) result }
{
    let tables = TableId::all();
    for table_index in 0..tables.len() {
        check_rows(counted, tables[table_index])?;
    }
    Ok(())
}

/// Checks that each row of a table has its cells.
#[tactic(auto, using(packed::proofs::RuleLemmas::before_none, packed::proofs::RuleLemmas::before_more, packed::proofs::RuleLemmas::before_all, packed::proofs::RuleLemmas::before_fails))]
fn check_rows(counted: &Counted, table: TableId) -> Result<(), Refusal>
    ensures { Reports (rules_from (refusals_of_row counted.now table) 1 (count_in counted.now table)) result }
{
    let count = counted.count(table);
    for row in 1..count + 1 {
        check_row(counted, table, row)?;
    }
    Ok(())
}

/// Checks that a row has the right number of cells, and that each fits its column.
#[tactic(auto, using(crate::proofs::CellCheckLemmas::all_length), unfolding(metadata::specs::Refusals::refusals_of_row))]
fn check_row(counted: &Counted, table: TableId, row: u32) -> Result<(), Refusal>
    requires first { 1 ≤ row }
    requires last { row ≤ count_in counted.now table }
    ensures { Reports (refusals_of_row counted.now table row) result }
{
    let cells = counted.cells(table, row);
    if cells.len() != cell_count(table) {
        return Err(Refusal::new(FaultCode::BadCell, table.number(), row, 0));
    }
    check_each_cell(counted, table, row, cells)
}

/// Checks that each cell of a row fits its column.
#[tactic(auto, using(packed::proofs::RuleLemmas::before_none, packed::proofs::RuleLemmas::before_more, packed::proofs::RuleLemmas::before_all, packed::proofs::RuleLemmas::before_fails, crate::proofs::CellCheckLemmas::item_said))]
fn check_each_cell(
    counted: &Counted,
    table: TableId,
    row: u32,
    cells: &[Cell],
) -> Result<(), Refusal>
    requires cells { all_said cells.now ≡ row_of counted.now table row }
    requires long { length cells.now ≡ cell_count table }
    ensures { Reports (rules_from (refusals_of_cell counted.now table row) 0 (cell_count table)) result }
{
    for cell_index in 0..cells.len() {
        check_cell(counted, table, row, cell_index, &cells[cell_index])?;
    }
    Ok(())
}

/// Checks that the cell with this index in a row fits its column.
#[tactic(auto, unfolding(metadata::specs::Refusals::refusals_of_cell))]
fn check_cell(
    counted: &Counted,
    table: TableId,
    row: u32,
    cell_index: usize,
    cell: &Cell,
) -> Result<(), Refusal>
    requires cell_index { cell_index < cell_count table }
    requires cell { said cell.now ≡ cell_in counted.now table row cell_index }
    ensures { Reports (refusals_of_cell counted.now table row cell_index) result }
{
    let column = column_at(table, cell_index);
    let number = table.number();
    if !is_of_column(column.kind, cell) {
        return Err(Refusal::new(FaultCode::BadCell, number, row, cell_index));
    }
    if !may_refer(counted, column.nullable, cell) {
        return Err(Refusal::new(FaultCode::BadIndex, number, row, cell_index));
    }
    if !is_within_members(counted, column.kind, cell) {
        return Err(Refusal::new(FaultCode::BadList, number, row, cell_index));
    }
    Ok(())
}

/// Whether a cell is of the kind of a column, and a heap can hold it.
fn is_of_column(kind: ColumnKind, cell: &Cell) -> bool
    ensures { IsTrue result ↔ (IsOfKind kind (said cell.now) × IsStorable (said cell.now)) }
{
    cell.is_of_kind(kind) && cell.is_storable()
}

/// Whether a reference names a row that exists, or is null if null is allowed.
fn may_refer(counted: &Counted, nullable: bool, cell: &Cell) -> bool
    ensures { IsTrue result ↔ MayRefer counted.now nullable (said cell.now) }
{
    match cell {
        Cell::Ref(None) => nullable,
        Cell::Ref(Some(token)) => 1 <= token.row && token.row <= counted.count(token.table),
        _ => true,
    }
}

/// Whether a start is at most one more than the last member.
fn is_within_members(counted: &Counted, kind: ColumnKind, cell: &Cell) -> bool
    ensures { IsTrue result ↔ IsWithinMembers counted.now kind (said cell.now) }
{
    match (kind, cell) {
        (ColumnKind::List(member), Cell::Start(start)) => *start <= counted.count(member) + 1,
        _ => true,
    }
}
