ghost use Rattle.std.specs.Prelude.{◌≡◌, ◌<◌, IfOk};
ghost use Rattle.packed.specs.Rule.{Reports};
ghost use Rattle.metadata.specs.Metadata.{count_in};
ghost use Rattle.metadata.specs.Rows.{table_at};
ghost use Rattle.metadata.specs.Refusals.{refusals_of_count};

use crate::{Cell, Tables};
use metadata::Refusal;
use packed::FaultCode;
use std::marker::Model;
use table_schema::TableId;

/// The greatest number of rows of a table (II.22).
const ROW_LIMIT: usize = 0xFF_FFFF;

/// Tables within the limit of rows, with the number of rows of each, by table number.
#[derive(Drop)]
pub struct Counted<'a> {
    tables: &'a Tables,
    counts: [u32; 45],
}

impl<'a> Model for Counted<'a> {
    ghost use Rattle.metadata.specs.Metadata.{Metadata};
    ghost use Rattle.tables.specs.Code.{metadata_code};

    ghost Value = { Metadata };

    ghost coded = { metadata_code };

    ghost use Rattle.tables.specs.Counts.{IsCounted};

    ghost view = { λ c. c.tables.now };

    ghost invariant = { IsCounted };
}

impl<'a> Counted<'a> {
    ghost use Rattle.std.specs.Prelude.{◌≡◌, ◌≤◌, IfOk, slice_index, unwrap_or, option_map};
    ghost use Rattle.std.specs.Option.{option_copied};
    ghost use Rattle.packed.specs.Rule.{Reports};
    ghost use Rattle.table_schema.specs.declared.table.TableId.{TableId as Table};
    ghost use Rattle.table_schema.specs.Tables.{table_number};
    ghost use Rattle.tables.specs.Said.{said, all_said};
    ghost use Rattle.metadata.specs.Cell.{Number as NumberCell};
    ghost use Rattle.metadata.specs.Metadata.{row_of, count_in, cell_in};
    ghost use Rattle.metadata.specs.Refusals.{refusals_of_counts};

    /// Counts the rows of tables. Fails if a table has too many rows.
    #[tactic(auto, using(packed::proofs::RuleLemmas::before_none, packed::proofs::RuleLemmas::before_more, packed::proofs::RuleLemmas::before_all, packed::proofs::RuleLemmas::before_fails), unfolding(metadata::specs::Refusals::refusals_of_counts))]
    pub fn new(tables: &'a Tables) -> Result<Counted<'a>, Refusal>
        ensures reports { Reports (refusals_of_counts tables.now) result }
        ensures tables { IfOk result (λ counted. counted ≡ tables.now) }
    {
        table_schema::laws::tables_stand();
        let all = TableId::all();
        let mut counts = [0; 45];
        for table_index in 0..all.len() {
            let number = all[table_index].number();
            counts[number as usize] = count_rows(tables, table_index)?;
        }
        Ok(Counted { tables, counts })
    }

    /// The number of rows of a table.
    pub fn count(&self, table: TableId) -> u32
        ensures value { result ≡ count_in self.now table }
        ensures limit { result ≤ 0xFFFFFF }
    {
        self.counts[table.number() as usize]
    }

    /// The number of rows of each table, by table number.
    pub fn counts(&self) -> &[u32; 45]
        ensures { (table : Table) → slice_index result.now (table_number table) ≡ count_in self.now table }
    {
        &self.counts
    }

    /// The cells of a row. Rows count from 1.
    pub fn cells(&self, table: TableId, row: u32) -> &'a [Cell]
        requires first { 1 ≤ row }
        requires last { row ≤ count_in self.now table }
        ensures { all_said result.now ≡ row_of self.now table row }
    {
        self.tables.cells(table, row as usize)
    }

    /// The cell with this index in a row; `None` after the last cell.
    #[tactic(auto, using(crate::proofs::CellCheckLemmas::got_said))]
    pub fn cell(&self, table: TableId, row: u32, cell_index: usize) -> Option<&'a Cell>
        requires first { 1 ≤ row }
        requires last { row ≤ count_in self.now table }
        ensures { unwrap_or (option_map said (option_copied result)) (NumberCell 0) ≡ cell_in self.now table row cell_index }
    {
        self.cells(table, row).get(cell_index)
    }
}

/// The number of rows of the table with this table index, if it is within the limit.
#[tactic(auto, unfolding(metadata::specs::Refusals::refusals_of_count))]
fn count_rows(tables: &Tables, table_index: usize) -> Result<u32, Refusal>
    requires { table_index < 38 }
    ensures reports { Reports (refusals_of_count tables.now table_index) result }
    ensures count { IfOk result (λ count. count ≡ count_in tables.now (table_at table_index)) }
{
    let table = TableId::all()[table_index];
    let count = tables.count(table);
    if count > ROW_LIMIT {
        return Err(Refusal::new(FaultCode::RowCount, table.number(), 0, 0));
    }
    Ok(count as u32)
}
