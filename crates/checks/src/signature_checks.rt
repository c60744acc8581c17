ghost use Rattle.std.specs.Prelude.{◌≡◌, ◌≤◌, ◌<◌, ◌+◌, ℕ, ◌-◌, Ok, length, IfSome, OnOk, OnSome, IfNone};
ghost use Rattle.packed.specs.Rule.{AllHold, Reports, HoldBefore};
ghost use Rattle.heap_entries.specs.Entries.{IsBlob};
ghost use Rattle.table_schema.specs.Columns.{columns_of, column_at};
ghost use Rattle.table_schema.specs.declared.column.ColumnKind.TheVariants as kind;
ghost use Rattle.metadata.specs.Source.{number_of, rows_in};
ghost use Rattle.metadata.specs.Rules.{rules_of_encoding, rules_of_signature, rules_of_signatures_in, rules_of_signatures_of, rules_of_signatures};
ghost use Rattle.reading.specs.Codes.{code_at};
ghost use Rattle.checks.specs.Budgets.{Spends, Takes, IsBelow};
ghost use Rattle.checks.specs.Within.{ReportsWithin};
ghost use Rattle.checks.specs.Columns.{AllPass, IsEncoded, IsNotEncoded, ColumnEncodes};
ghost use Rattle.checks.specs.Walks.{StopsAt, column_walked, table_walked, walked_bytes, walked_signature_bytes};

use crate::budget::{BoundedError, Budget};
use crate::passed::Passed;
use heap_entries::blob;
use packed::{Fault, FaultCode};
use reading::{Source, column_at};
use sig_recogniser::recognise_first_bad;
use table_schema::{ColumnKind, SigKind, TableId, columns};

/// Checks that each signature blob encodes a signature, and that the rows of its type indexes exist (II.23.2).
pub fn check_signatures(source: &Source, budget: Budget) -> Result<(), BoundedError>
    ensures reports { ReportsWithin (IsBelow budget (walked_signature_bytes source.now.source)) (rules_of_signatures source.now) result }
    ensures enough { OnOk result (¬ IsBelow budget (walked_signature_bytes source.now.source)) }
{
    let tables = TableId::all();
    let mut left = budget;
    for table_index in 0..tables.len() {
        check_signatures_of(source, tables[table_index], &mut left)?;
    }
    Ok(())
}

/// Checks the signatures of a table.
///
/// A pass over the columns finds the first row with a blob that breaks a rule. The rows are checked one by
/// one only from that row on, to find its first fault.
fn check_signatures_of(
    source: &Source,
    table: TableId,
    budget: &mut Budget,
) -> Result<(), BoundedError>
    ensures reports { ReportsWithin (IsBelow budget.old (table_walked source.now.source table)) (rules_of_signatures_of source.now table) result }
    ensures takes { OnOk result (Takes budget.old budget.new (table_walked source.now.source table)) }
{
    let Some(first) = first_row(source, table, budget) else {
        return Err(BoundedError::BudgetSpent);
    };
    check_signature_rows(source, table, first)?;
    Ok(())
}

/// Checks the signatures of a table, row by row from `first` on.
#[inline(never)]
#[tactic(auto, using(packed::proofs::RuleLemmas::before_none, packed::proofs::RuleLemmas::before_more, packed::proofs::RuleLemmas::before_all, packed::proofs::RuleLemmas::before_fails), unfolding(metadata::specs::Rules::rules_of_signatures_of))]
fn check_signature_rows(source: &Source, table: TableId, first: u32) -> Result<(), Fault>
    requires first { 1 ≤ first }
    requires last { first ≤ rows_in source.now.source table + 1 }
    requires before { HoldBefore (rules_of_signatures_in source.now table) 1 first }
    ensures { Reports (rules_of_signatures_of source.now table) result }
{
    let count = source.count(table);
    for row in first..count + 1 {
        check_signatures_in(source, table, row)?;
    }
    Ok(())
}

/// The first row of a table with a blob that breaks a rule of its signature. If there is none, one more than
/// the last row. `None` if the budget is spent. It reads column by column.
fn first_row(source: &Source, table: TableId, budget: &mut Budget) -> Option<u32>
    ensures found { IfSome result (λ row. (1 ≤ row) × (row ≤ rows_in source.now.source table + 1)) }
    ensures before { IfSome result (HoldBefore (rules_of_signatures_in source.now table) 1) }
    ensures broken { IfSome result (λ row. row ≤ rows_in source.now.source table → ¬ AllHold (rules_of_signatures_in source.now table row)) }
    ensures takes { IfSome result (λ row. rows_in source.now.source table < row → Takes budget.old budget.new (table_walked source.now.source table)) }
    ensures spent { IfNone result (IsBelow budget.old (table_walked source.now.source table)) }
{
    let mut limit = source.count(table) + 1;
    for column in 0..columns(table).len() {
        limit = first_in_column(source, table, column, limit, budget)?;
    }
    Some(limit)
}

/// The first row before `limit` whose blob in this column breaks a rule of its signature. It is `limit` if there
/// is none, or if the column is not of signatures. `None` if the budget is spent.
fn first_in_column(
    source: &Source,
    table: TableId,
    column: usize,
    limit: u32,
    budget: &mut Budget,
) -> Option<u32>
    requires column { column < length (columns_of table) }
    requires first { 1 ≤ limit }
    requires last { limit ≤ rows_in source.now.source table + 1 }
    ensures found { IfSome result (λ row. (1 ≤ row) × (row ≤ limit)) }
    ensures encodes { IfSome result (λ row. ColumnEncodes source.now table row column) }
    ensures broken { IfSome result (λ row. row < limit → ¬ AllHold (rules_of_signature source.now table row column)) }
    ensures spends { OnSome result (Spends budget.old budget.new (column_walked source.now.source table column)) }
    ensures takes { IfSome result (λ row. rows_in source.now.source table < row → Takes budget.old budget.new (column_walked source.now.source table column)) }
    ensures spent { IfNone result (IsBelow budget.old (column_walked source.now.source table column)) }
{
    match column_at(table, column).kind {
        ColumnKind::Signature(encoded) => {
            first_not_encoded(source, table, column, encoded, limit, budget)
        }
        _ => Some(limit),
    }
}

/// The first row before `limit` whose blob breaks a rule of a signature of this kind; `limit` if there is
/// none. `None` if the budget is spent.
///
/// A number that is remembered is not walked again. The tables of these numbers are on the stack only here.
#[inline(never)]
fn first_not_encoded(
    source: &Source,
    table: TableId,
    column: usize,
    encoded: SigKind,
    limit: u32,
    budget: &mut Budget,
) -> Option<u32>
    requires column { column < length (columns_of table) }
    requires kind { (column_at table column).kind ≡ kind.Signature encoded }
    requires first { 1 ≤ limit }
    requires last { limit ≤ rows_in source.now.source table + 1 }
    ensures found { IfSome result (λ row. (1 ≤ row) × (row ≤ limit)) }
    ensures encoded { IfSome result (AllPass (λ number. IsEncoded source.now.source (kind.Signature encoded) number (Ok tt)) source.now.source table column) }
    ensures broken { IfSome result (λ row. row < limit → IsNotEncoded source.now.source (kind.Signature encoded) (number_of source.now.source table row column)) }
    // What is taken of the budget are the bytes that were walked, where a blob that is kept is not walked again.
    ensures walked { IfSome result (StopsAt source.now.source table column limit budget.old budget.new) }
    ensures spent { IfNone result (IsBelow budget.old (walked_bytes source.now.source table column (limit - 1))) }
{
    packed::laws::numbers_are_read();
    if limit == 1 {
        return Some(limit);
    }
    let heap = source.blobs();
    let numbers = source.column(table, column);
    let mut accepted = Passed::none(heap.len());
    for row in 1..limit {
        let number = numbers.number(row);
        let Some(beginning) = accepted.beginning_of_new(number) else {
            continue;
        };
        let Ok(blob) = blob(heap, number) else {
            return Some(row);
        };
        budget.spend(blob.len())?;
        match check_blob(source, encoded, blob) {
            Ok(()) => accepted.keep(number, beginning, blob.len()),
            Err(_) => return Some(row),
        }
    }
    Some(limit)
}

/// Checks the signatures of a row.
#[tactic(auto, using(packed::proofs::RuleLemmas::before_none, packed::proofs::RuleLemmas::before_more, packed::proofs::RuleLemmas::before_all, packed::proofs::RuleLemmas::before_fails), unfolding(metadata::specs::Rules::rules_of_signatures_in))]
fn check_signatures_in(source: &Source, table: TableId, row: u32) -> Result<(), Fault>
    requires first { 1 ≤ row }
    requires last { row ≤ rows_in source.now.source table }
    ensures { Reports (rules_of_signatures_in source.now table row) result }
{
    for column in 0..columns(table).len() {
        check_signature(source, table, row, column)?;
    }
    Ok(())
}

/// Checks the signature of a column, if the column is of signatures.
fn check_signature(source: &Source, table: TableId, row: u32, column: usize) -> Result<(), Fault>
    requires first { 1 ≤ row }
    requires last { row ≤ rows_in source.now.source table }
    requires column { column < length (columns_of table) }
    ensures { Reports (rules_of_signature source.now table row column) result }
{
    let held = column_at(table, column);
    let number = source.number(table, row, column);
    match check_encoding(source, held.kind, number) {
        Ok(()) => Ok(()),
        Err(code) => Err(source.fault(code, table, row, column)),
    }
}

/// Checks that the blob of a number encodes a signature, if the column is of signatures, and that the rows of
/// its type indexes exist.
fn check_encoding(source: &Source, kind: ColumnKind, number: u32) -> Result<(), FaultCode>
    ensures { (offset : ℕ) → Reports (rules_of_encoding source.now.source kind number offset) (code_at offset result) }
{
    match kind {
        ColumnKind::Signature(column) => check_signature_at(source, column, number),
        _ => Ok(()),
    }
}

/// Checks that the blob of a number encodes a signature, and that the rows of its type indexes exist.
fn check_signature_at(source: &Source, column: SigKind, number: u32) -> Result<(), FaultCode>
    ensures { (offset : ℕ) → Reports (rules_of_encoding source.now.source (kind.Signature column) number offset) (code_at offset result) }
{
    match blob(source.blobs(), number) {
        Ok(blob) => check_blob(source, column, blob),
        Err(_) => Err(FaultCode::BadSignature),
    }
}

/// Checks that a blob encodes a signature, and that the rows of its type indexes exist.
#[inline(always)]
fn check_blob(source: &Source, column: SigKind, blob: &[u8]) -> Result<(), FaultCode>
    ensures { (number : ℕ) → IsBlob source.now.source.blobs number blob.now → IsEncoded source.now.source (kind.Signature column) number result }
{
    heap_entries::laws::entries_are_one();
    match recognise_first_bad(blob, column, source.counts()) {
        Some(None) => Ok(()),
        Some(Some(_)) => Err(FaultCode::SignatureIndex),
        None => Err(FaultCode::BadSignature),
    }
}
