ghost use Rattle.std.specs.Prelude.{◌≡◌, ◌≤◌, ◌<◌, ◌+◌, Ok, true, length};
ghost use Rattle.table_schema.specs.Columns.{columns_of};
ghost use Rattle.metadata.specs.Source.{rows_in};
ghost use Rattle.checks.specs.Columns.{AllPass};

use packed::FaultCode;
use reading::Source;
use table_schema::TableId;

/// The first row before `limit` whose number in a column breaks a rule; `limit` if there is none.
///
/// A number that equals the number of the row before is not checked again.
pub fn first_refused<F: Fn(u32) -> Result<(), FaultCode>>(
    source: &Source,
    table: TableId,
    column: usize,
    limit: u32,
    check: F,
) -> u32
    requires column { column < length (columns_of table) }
    requires first { 1 ≤ limit }
    requires last { limit ≤ rows_in source.now.source table + 1 }
    requires callable { F.IsAlwaysCallable check }
    ensures first { 1 ≤ result }
    ensures last { result ≤ limit }
    ensures passed { AllPass (λ number. F.post check number (Ok tt)) source.now.source table column result }
{
    let numbers = source.column(table, column);
    let mut passed = None;
    for row in 1..limit {
        let number = numbers.number(row);
        if passed == Some(number) {
            continue;
        }
        if check(number).is_err() {
            return row;
        }
        passed = Some(number);
    }
    limit
}

/// The first row before `limit` whose number in a column fails a test; `limit` if there is none.
///
/// For tests that only compare: they cost no more than to remember the number of the row before.
pub fn first_failing<F: Fn(u32) -> bool>(
    source: &Source,
    table: TableId,
    column: usize,
    limit: u32,
    passes: F,
) -> u32
    requires column { column < length (columns_of table) }
    requires first { 1 ≤ limit }
    requires last { limit ≤ rows_in source.now.source table + 1 }
    requires callable { F.IsAlwaysCallable passes }
    ensures first { 1 ≤ result }
    ensures last { result ≤ limit }
    ensures passed { AllPass (λ number. F.post passes number true) source.now.source table column result }
{
    source.column(table, column).first_failing(limit, passes)
}

/// The greatest number in a column before row `limit`; 0 if there is no such row.
pub fn greatest_number(source: &Source, table: TableId, column: usize, limit: u32) -> u32
    requires column { column < length (columns_of table) }
    requires first { 1 ≤ limit }
    requires last { limit ≤ rows_in source.now.source table + 1 }
    ensures { AllPass (λ number. number ≤ result) source.now.source table column limit }
{
    source.column(table, column).greatest(limit)
}
