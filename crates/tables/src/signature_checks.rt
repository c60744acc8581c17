ghost use Rattle.std.specs.Prelude.{◌≡◌, ◌≤◌, ◌<◌, ◌↔◌, IsTrue};
ghost use Rattle.packed.specs.Rule.{Reports, rules_from};
ghost use Rattle.table_schema.specs.CellColumns.{cell_count};
ghost use Rattle.tables.specs.Said.{said};
ghost use Rattle.metadata.specs.Metadata.{count_in};
ghost use Rattle.metadata.specs.Valid.{NamesTypes};
ghost use Rattle.metadata.specs.Refusals.{refusals_of_signature, refusals_of_signatures_in, refusals_by_row};

use crate::Cell;
use crate::column::column_at;
use crate::counted::Counted;
use metadata::Refusal;
use packed::FaultCode;
use table_schema::{TableId, cell_count};

/// Checks that each signature is one that its column holds, and that the rows of its type indexes exist (II.23.2).
#[tactic(auto, using(packed::proofs::RuleLemmas::before_none, packed::proofs::RuleLemmas::before_more, packed::proofs::RuleLemmas::before_all, packed::proofs::RuleLemmas::before_fails), unfolding(metadata::specs::Refusals::refusals_by_row, metadata::specs::Refusals::refusals_by_row_at))]
pub fn check_signatures(counted: &Counted) -> Result<(), Refusal>
    ensures { Reports (refusals_by_row counted.now (refusals_of_signatures_in counted.now)) result }
{
    let tables = TableId::all();
    for table_index in 0..tables.len() {
        check_table(counted, tables[table_index])?;
    }
    Ok(())
}

/// Checks the signatures of a table.
#[tactic(auto, using(packed::proofs::RuleLemmas::before_none, packed::proofs::RuleLemmas::before_more, packed::proofs::RuleLemmas::before_all, packed::proofs::RuleLemmas::before_fails))]
fn check_table(counted: &Counted, table: TableId) -> Result<(), Refusal>
    ensures { Reports (rules_from (refusals_of_signatures_in counted.now table) 1 (count_in counted.now table)) result }
{
    let count = counted.count(table);
    for row in 1..count + 1 {
        check_row(counted, table, row)?;
    }
    Ok(())
}

/// Checks the signatures of a row.
#[tactic(auto, using(packed::proofs::RuleLemmas::before_none, packed::proofs::RuleLemmas::before_more, packed::proofs::RuleLemmas::before_all, packed::proofs::RuleLemmas::before_fails), unfolding(metadata::specs::Refusals::refusals_of_signatures_in))]
fn check_row(counted: &Counted, table: TableId, row: u32) -> Result<(), Refusal>
    requires first { 1 ≤ row }
    requires last { row ≤ count_in counted.now table }
    ensures { Reports (refusals_of_signatures_in counted.now table row) result }
{
    for cell_index in 0..cell_count(table) {
        check_signature(counted, table, row, cell_index)?;
    }
    Ok(())
}

/// Checks the signature in the cell with this index, if that cell is a signature.
#[tactic(auto, unfolding(metadata::specs::Refusals::refusals_of_signature))]
fn check_signature(
    counted: &Counted,
    table: TableId,
    row: u32,
    cell_index: usize,
) -> Result<(), Refusal>
    requires first { 1 ≤ row }
    requires last { row ≤ count_in counted.now table }
    requires cell_index { cell_index < cell_count table }
    ensures { Reports (refusals_of_signature counted.now table row cell_index) result }
{
    let Some(cell) = counted.cell(table, row, cell_index) else {
        return Ok(());
    };
    let code = if !cell.is_held(column_at(table, cell_index).kind) {
        FaultCode::BadSignature
    } else if !names_types(counted, cell) {
        FaultCode::SignatureIndex
    } else {
        return Ok(());
    };
    Err(Refusal::new(code, table.number(), row, cell_index))
}

/// Whether the row of each type index of a signature exists.
fn names_types(counted: &Counted, cell: &Cell) -> bool
    ensures { IsTrue result ↔ NamesTypes counted.now (said cell.now) }
{
    match cell {
        Cell::Sig(signature) => signature.first_bad(counted.counts()).is_none(),
        _ => true,
    }
}
