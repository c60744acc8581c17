//! The cells of tables, row by row, if not all of `#Strings` is UTF-8. Then texts are read, and their bytes are counted.
ghost use Rattle.std.specs.Prelude.{◌≡◌, ◌≤◌, ◌<◌, ◌-◌, ◌^◌, IfErr, IfNone, IfOk, IfSome, OnSome, false, length};
ghost use Rattle.std.specs.Str.{is_utf8};
ghost use Rattle.packed.specs.Rule.{AllHold};
ghost use Rattle.table_schema.specs.Columns.{columns_of};
ghost use Rattle.metadata.specs.Source.{rows_in};
ghost use Rattle.metadata.specs.Rules.{rules_of_cell, rules_of_row};
ghost use Rattle.checks.specs.Broken.{IsFirstBrokenIn, bytes_before_in};
ghost use Rattle.checks.specs.Budgets.{Takes};
ghost use Rattle.checks.specs.Within.{RowsSpend};
ghost use Rattle.checks.specs.TextBytes.{cell_text_bytes, row_text_bytes};

use crate::budget::{BoundedError, Budget};
use crate::cell_checks::check_number;
use crate::texts::Texts;
use reading::{Source, column_at};
use table_schema::{ColumnKind, TableId, columns};

/// The first row of a table with a number that stands for no cell. `BudgetSpent` if the rows before it count more bytes
/// of texts than the budget.
pub fn broken_by_rows(
    source: &Source,
    table: TableId,
    texts: &mut Texts,
    budget: &mut Budget,
) -> Result<Option<u32>, BoundedError>
    requires texts { texts.old ≡ source.now.source.texts }
    requires read { is_utf8 source.now.source.texts ≡ false }
    ensures texts { texts.new ≡ texts.old }
    ensures broken { IfOk result (IsFirstBrokenIn source.now table) }
    ensures takes { IfOk result (λ found. Takes budget.old budget.new (bytes_before_in source.now.source table found)) }
    ensures spent { IfErr result (λ error. (error ≡ BoundedError.BudgetSpent) × RowsSpend budget.old source.now table) }
{
    let count = source.count(table);
    for row in 1..count + 1 {
        let Some(bytes) = row_bytes(source, table, row, texts) else {
            return Ok(Some(row));
        };
        let Some(()) = budget.spend(bytes) else {
            return Err(BoundedError::BudgetSpent);
        };
    }
    Ok(None)
}

/// The bytes of texts that a row counts; `None` if one of its numbers stands for no cell.
fn row_bytes(source: &Source, table: TableId, row: u32, texts: &mut Texts) -> Option<usize>
    requires first { 1 ≤ row }
    requires last { row ≤ rows_in source.now.source table }
    requires texts { texts.old ≡ source.now.source.texts }
    requires read { is_utf8 source.now.source.texts ≡ false }
    ensures texts { texts.new ≡ texts.old }
    ensures holds { OnSome result (AllHold (rules_of_row source.now table row)) }
    ensures broken { IfNone result (¬ AllHold (rules_of_row source.now table row)) }
    ensures bytes { IfSome result (λ bytes. bytes ≡ row_text_bytes source.now.source table (row - 1)) }
{
    table_schema::laws::columns_stand();
    let mut bytes = 0;
    for column in 0..columns(table).len() {
        bytes += cell_bytes(source, table, row, column, texts)?;
    }
    Some(bytes)
}

/// The bytes of texts that a cell counts; `None` if its number stands for no cell.
fn cell_bytes(
    source: &Source,
    table: TableId,
    row: u32,
    column: usize,
    texts: &mut Texts,
) -> Option<usize>
    requires first { 1 ≤ row }
    requires last { row ≤ rows_in source.now.source table }
    requires column { column < length (columns_of table) }
    requires texts { texts.old ≡ source.now.source.texts }
    requires read { is_utf8 source.now.source.texts ≡ false }
    ensures texts { texts.new ≡ texts.old }
    ensures holds { OnSome result (AllHold (rules_of_cell source.now table row column)) }
    ensures broken { IfNone result (¬ AllHold (rules_of_cell source.now table row column)) }
    ensures bytes { IfSome result (λ bytes. bytes ≡ cell_text_bytes source.now.source table row column) }
    ensures few { IfSome result (λ bytes. bytes < 2 ^ 60) }
{
    let held = column_at(table, column);
    let number = source.number(table, row, column);
    match held.kind {
        ColumnKind::Text => match texts.check(number) {
            Ok(bytes) => Some(bytes),
            Err(_) => None,
        },
        _ => match check_number(source, held, number) {
            Ok(()) => Some(0),
            Err(_) => None,
        },
    }
}
