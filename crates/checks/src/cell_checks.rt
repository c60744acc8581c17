ghost use Rattle.std.specs.Prelude.{◌≡◌, ◌≤◌, ◌<◌, ◌+◌, ◌∷◌, [], ◌↔◌, ℕ, List, IfErr, IfOk, IsErrOf, IsTrue, Ok, OnOk, false, length};
ghost use Rattle.packed.specs.declared.code.FaultCode.TheVariants.{BadIndex, BadList};
ghost use Rattle.packed.specs.Rule.{Reports, HoldBefore, rule};
ghost use Rattle.heap_entries.specs.Entries.{IsBlob};
ghost use Rattle.table_schema.specs.declared.column.ColumnKind.TheVariants as kind;
ghost use Rattle.table_schema.specs.Columns.{columns_of};
ghost use Rattle.table_schema.specs.declared.table.TableId.{TableId as Table};
ghost use Rattle.metadata.specs.Source.{Source as Numbers, rows_in};
ghost use Rattle.reading.specs.Codes.{code_at};
ghost use Rattle.checks.specs.CodedLimits.{AreLimits};
ghost use Rattle.checks.specs.Columns.{AllPass, IsChecked, ColumnStands};
ghost use Rattle.checks.specs.Broken.{IsFirstBroken, IsFirstBrokenIn, bytes_before, bytes_before_in};
ghost use Rattle.checks.specs.Budgets.{Takes};
ghost use Rattle.checks.specs.Within.{ReportsWithin, RowsSpend, TextsSpend};
ghost use Rattle.checks.specs.TextBytes.{text_bytes};
ghost use Rattle.metadata.specs.Rules.{MayRefer, rules_of_number, rules_of_cell, rules_of_row, rules_of_cells};

use crate::blobs::Blobs;
use crate::budget::{BoundedError, Budget};
use crate::coded_limits::{is_below_limit, limits_by_tag};
use crate::column::{first_failing, first_refused, greatest_number};
use crate::counted_rows::broken_by_rows;
use crate::texts::Texts;
use packed::{Fault, FaultCode};
use reading::{Source, column_at, named_by};
use table_schema::{Coded, Column, ColumnKind, TableId, columns};

/// A row of a table (II.22).
#[derive(Clone, Copy, Debug, PartialEq, Eq)]
pub struct BrokenRow {
    /// The table index, from 0.
    pub table_index: usize,
    /// The row, from 1.
    pub row: u32,
}

/// Checks that each number of each table stands for a cell (II.22). The budget limits the bytes of texts that are read.
///
/// # Errors
///
/// The fault of the first row that breaks a rule. `BudgetSpent` if the rows before that one count more bytes of texts.
#[inline(never)]
pub fn check_cells(source: &Source, budget: &mut Budget) -> Result<(), BoundedError>
    ensures reports { ReportsWithin (TextsSpend budget.old source.now) (rules_of_cells source.now) result }
    ensures takes { OnOk result (Takes budget.old budget.new (text_bytes source.now.source)) }
    ensures texts { TextsSpend budget.old source.now → IsErrOf result BoundedError.BudgetSpent }
{
    let Some(broken) = first_broken_within(source, budget)? else {
        return Ok(());
    };
    check_row(source, TableId::all()[broken.table_index], broken.row)?;
    Ok(())
}

/// The first row, by table and row, that breaks a rule for cells; `None` if no row does (II.22). Those rules do not look
/// into signatures.
///
/// It does not allocate. The cost is linear in the rows, and in the texts that they name.
pub fn first_broken_row(source: &Source) -> Option<BrokenRow>
    ensures { IsFirstBroken source.now result }
{
    match first_broken_within(source, &mut Budget::Unbounded) {
        Ok(found) => found,
        Err(_) => unreachable!(),
    }
}

/// The first row that breaks a rule for cells, within a budget of bytes of texts. `BudgetSpent` if the rows before it
/// count more.
fn first_broken_within(
    source: &Source,
    budget: &mut Budget,
) -> Result<Option<BrokenRow>, BoundedError>
    ensures first { IfOk result (IsFirstBroken source.now) }
    ensures takes { IfOk result (λ found. Takes budget.old budget.new (bytes_before source.now.source found)) }
    ensures spent { IfErr result (λ error. (error ≡ BoundedError.BudgetSpent) × TextsSpend budget.old source.now) }
{
    let tables = TableId::all();
    let mut texts = Texts::new(source.texts());
    for table_index in 0..tables.len() {
        let found = broken_row(source, tables[table_index], &mut texts, budget)?;
        if let Some(row) = found {
            return Ok(Some(BrokenRow { table_index, row }));
        }
    }
    Ok(None)
}

/// The first row of a table with a number that stands for no cell, within a budget of bytes of texts.
///
/// If all of `#Strings` is UTF-8, no text is read. A pass over the columns finds a row before which there is none. The
/// rows are checked one by one only from that row on. Otherwise all rows are checked one by one.
fn broken_row(
    source: &Source,
    table: TableId,
    texts: &mut Texts,
    budget: &mut Budget,
) -> Result<Option<u32>, BoundedError>
    requires { texts.old ≡ source.now.source.texts }
    ensures texts { texts.new ≡ texts.old }
    ensures broken { IfOk result (IsFirstBrokenIn source.now table) }
    ensures takes { IfOk result (λ found. Takes budget.old budget.new (bytes_before_in source.now.source table found)) }
    ensures spent { IfErr result (λ error. (error ≡ BoundedError.BudgetSpent) × RowsSpend budget.old source.now table) }
{
    if source.strings().is_utf8() {
        return Ok(broken_from(source, table, first_row(source, table, texts)));
    }
    broken_by_rows(source, table, texts, budget)
}

/// The first row of a table with a number that stands for no cell, by the rows from `first` on.
fn broken_from(source: &Source, table: TableId, first: u32) -> Option<u32>
    requires first { 1 ≤ first }
    requires last { first ≤ rows_in source.now.source table + 1 }
    requires before { HoldBefore (rules_of_row source.now table) 1 first }
    ensures { IsFirstBrokenIn source.now table result }
{
    let count = source.count(table);
    for row in first..count + 1 {
        if check_row(source, table, row).is_err() {
            return Some(row);
        }
    }
    None
}

/// A row of a table before which each number stands for a cell; one more than the last row if that is so of all rows.
/// It reads column by column.
fn first_row(source: &Source, table: TableId, texts: &Texts) -> u32
    requires { texts.now ≡ source.now.source.texts }
    ensures first { 1 ≤ result }
    ensures last { result ≤ rows_in source.now.source table + 1 }
    ensures before { HoldBefore (rules_of_row source.now table) 1 result }
{
    let mut limit = source.count(table) + 1;
    for column in 0..columns(table).len() {
        limit = first_in_column(source, table, column, limit, texts);
    }
    limit
}

/// The first row before `limit` whose number in this column stands for no cell; `limit` if there is none.
///
/// The column's kind is matched once, before the loop over the rows.
fn first_in_column(source: &Source, table: TableId, column: usize, limit: u32, texts: &Texts) -> u32
    requires column { column < length (columns_of table) }
    requires first { 1 ≤ limit }
    requires last { limit ≤ rows_in source.now.source table + 1 }
    requires texts { texts.now ≡ source.now.source.texts }
    ensures first { 1 ≤ result }
    ensures last { result ≤ limit }
    ensures stands { ColumnStands source.now table result column }
{
    match column_at(table, column).kind {
        ColumnKind::U8 | ColumnKind::U16 | ColumnKind::U32 | ColumnKind::Padding => limit,
        ColumnKind::Text => first_without_text(source, table, column, limit, texts),
        ColumnKind::Guid => {
            let check = |number|
                ensures { IsChecked source.entry.now.source kind.Guid false number result }
            { source.check_guid(number) };
            first_refused(source, table, column, limit, check)
        }
        ColumnKind::Blob | ColumnKind::Signature(_) => {
            let blobs = Blobs::new(source.blobs());
            let passes = |number|
                ensures { IsTrue result → (blob : List ℕ) × IsBlob blobs.entry number blob }
            { blobs.has(number) };
            first_failing(source, table, column, limit, passes)
        }
        ColumnKind::Row(_) | ColumnKind::Coded(_) | ColumnKind::List(_) => first_index(
            source, table, column, limit,
        ),
    }
}

/// The first row before a limit whose number in a column is of no text, the limit where there is none.
///
/// In a heap of ASCII the greatest number of the column is enough, if no number is refused. In another heap that is UTF-8
/// as a whole a text takes constant time.
fn first_without_text(
    source: &Source,
    table: TableId,
    column: usize,
    limit: u32,
    texts: &Texts,
) -> u32
    requires column { column < length (columns_of table) }
    requires first { 1 ≤ limit }
    requires last { limit ≤ rows_in source.now.source table + 1 }
    requires texts { texts.now ≡ source.now.source.texts }
    ensures first { 1 ≤ result }
    ensures last { result ≤ limit }
    ensures passed { AllPass (λ number. IsChecked source.now.source kind.Text false number (Ok tt)) source.now.source table column result }
{
    let sure_end = texts.sure_end();
    if sure_end > 0 && greatest_number(source, table, column, limit) as usize <= sure_end {
        return limit;
    }
    let check = |number|
        ensures { IsChecked source.entry.now.source kind.Text false number result }
    { source.check_text(number) };
    first_refused(source, table, column, limit, check)
}

/// The same for a column of indexes into tables; returns row 1 if the column is of another kind.
///
/// The limits of the rows that may be named are looked up once, so that a number is only compared.
fn first_index(source: &Source, table: TableId, column: usize, limit: u32) -> u32
    requires column { column < length (columns_of table) }
    requires first { 1 ≤ limit }
    requires last { limit ≤ rows_in source.now.source table + 1 }
    ensures first { 1 ≤ result }
    ensures last { result ≤ limit }
    ensures stands { ColumnStands source.now table result column }
{
    let held = column_at(table, column);
    let nullable = held.nullable;
    match held.kind {
        ColumnKind::Row(named) => {
            let last = source.count(named);
            let passes = |number|
                ensures { (here : Numbers) (of : Table) → last ≤ rows_in here of → IsTrue result → IsChecked here (kind.Row of) nullable number (Ok tt) }
            { number <= last && (number != 0 || nullable) };
            first_failing(source, table, column, limit, passes)
        }
        ColumnKind::Coded(coded) => {
            let limits = limits_by_tag(source, coded);
            let passes = |number|
                ensures { (here : Numbers) → AreLimits here coded limits → IsTrue result → IsChecked here (kind.Coded coded) nullable number (Ok tt) }
            { is_below_limit(&limits, coded, nullable, number) };
            first_failing(source, table, column, limit, passes)
        }
        ColumnKind::List(member) => {
            let last = source.count(member) + 1;
            let passes = |number|
                ensures { (here : Numbers) (of : Table) → last ≤ rows_in here of + 1 → IsTrue result → IsChecked here (kind.List of) false number (Ok tt) }
            { number <= last };
            first_failing(source, table, column, limit, passes)
        }
        _ => 1,
    }
}

/// Checks that each number of a row stands for a cell.
#[tactic(auto, using(packed::proofs::RuleLemmas::before_none, packed::proofs::RuleLemmas::before_more, packed::proofs::RuleLemmas::before_all, packed::proofs::RuleLemmas::before_fails), unfolding(metadata::specs::Rules::rules_of_row))]
fn check_row(source: &Source, table: TableId, row: u32) -> Result<(), Fault>
    requires first { 1 ≤ row }
    requires last { row ≤ rows_in source.now.source table }
    ensures { Reports (rules_of_row source.now table row) result }
{
    for column in 0..columns(table).len() {
        check_cell(source, table, row, column)?;
    }
    Ok(())
}

/// Checks that the number of a column stands for a cell.
fn check_cell(source: &Source, table: TableId, row: u32, column: usize) -> Result<(), Fault>
    requires first { 1 ≤ row }
    requires last { row ≤ rows_in source.now.source table }
    requires column { column < length (columns_of table) }
    ensures { Reports (rules_of_cell source.now table row column) result }
{
    let held = column_at(table, column);
    let number = source.number(table, row, column);
    match check_number(source, held, number) {
        Ok(()) => Ok(()),
        Err(code) => Err(source.fault(code, table, row, column)),
    }
}

/// Checks that the number stands for a cell of the column.
pub(crate) fn check_number(source: &Source, column: Column, number: u32) -> Result<(), FaultCode>
    ensures { (offset : ℕ) → Reports (rules_of_number source.now.source column.kind column.nullable number offset) (code_at offset result) }
{
    match column.kind {
        ColumnKind::U8 | ColumnKind::U16 | ColumnKind::U32 | ColumnKind::Padding => Ok(()),
        ColumnKind::Text => source.check_text(number),
        ColumnKind::Guid => source.check_guid(number),
        ColumnKind::Blob | ColumnKind::Signature(_) => source.check_blob(number),
        ColumnKind::Row(table) => check_reference(source, column.nullable, table, number),
        ColumnKind::Coded(coded) => check_coded(source, column.nullable, coded, number),
        ColumnKind::List(member) => check_list(source, member, number),
    }
}

/// Whether a reference names a row that exists, or is null in a column that allows null.
fn may_refer(source: &Source, nullable: bool, table: TableId, row: u32) -> bool
    ensures { IsTrue result ↔ MayRefer source.now.source nullable (record { table = table; row = row }) }
{
    nullable && row == 0 || source.has_row(table, row)
}

/// Checks that a simple index names a row that exists.
fn check_reference(
    source: &Source,
    nullable: bool,
    table: TableId,
    row: u32,
) -> Result<(), FaultCode>
    ensures { (offset : ℕ) → Reports (rule (MayRefer source.now.source nullable (record { table = table; row = row })) BadIndex offset ∷ []) (code_at offset result) }
{
    if may_refer(source, nullable, table, row) {
        Ok(())
    } else {
        Err(FaultCode::BadIndex)
    }
}

/// Checks that a coded index has a tag in use, and names a row that exists.
fn check_coded(source: &Source, nullable: bool, coded: Coded, number: u32) -> Result<(), FaultCode>
    ensures { (offset : ℕ) → Reports (rules_of_number source.now.source (kind.Coded coded) nullable number offset) (code_at offset result) }
{
    let Some(token) = named_by(coded, number) else {
        return Err(FaultCode::BadTag);
    };
    if may_refer(source, nullable, token.table, token.row) {
        Ok(())
    } else {
        Err(FaultCode::BadIndex)
    }
}

/// Checks that a list value is null, a row of the member table, or one more than its last row.
fn check_list(source: &Source, member: TableId, number: u32) -> Result<(), FaultCode>
    ensures { (offset : ℕ) → Reports (rule (number ≤ rows_in source.now.source member + 1) BadList offset ∷ []) (code_at offset result) }
{
    if number <= source.count(member) + 1 {
        Ok(())
    } else {
        Err(FaultCode::BadList)
    }
}
