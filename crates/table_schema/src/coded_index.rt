ghost use Rattle.std.specs.Prelude.{◌≡◌, ◌≢◌, ◌<◌, ◌^◌, ℕ, Some, IfSome, IfNone, slice_get};
ghost use Rattle.table_schema.specs.declared.table.TableId.{TableId as Table};
ghost use Rattle.table_schema.specs.CodedIndexes.{tables_of, IsCoded};

use crate::coded::Coded;
use crate::table::TableId;

/// The table of a tag.
fn table_of(coded: Coded, tag: u32) -> Option<TableId>
    ensures sound { IfSome result (λ table. slice_get (tables_of coded) tag ≡ Some (Some table)) }
    ensures none { IfNone result ((table : Table) → slice_get (tables_of coded) tag ≢ Some (Some table)) }
{
    *coded.tables().get(tag as usize)?
}

/// The tag of a table.
fn tag_of(coded: Coded, table: TableId) -> Option<u32>
    ensures sound { IfSome result (λ tag. slice_get (tables_of coded) tag ≡ Some (Some table)) }
    ensures none { IfNone result ((tag : ℕ) → slice_get (tables_of coded) tag ≢ Some (Some table)) }
{
    for (tag, listed) in coded.tables().iter().enumerate() {
        if *listed == Some(table) {
            return Some(tag as u32);
        }
    }
    None
}

/// The table and the row that a coded index refers to, `None` if its tag is unused (II.24.2.6).
///
/// The row counts from 1; 0 is null.
pub fn split(coded: Coded, number: u32) -> Option<(TableId, u32)>
    ensures sound { IfSome result (λ named. IsCoded coded number named.0 named.1) }
    ensures complete { (table : Table) (row : ℕ) → IsCoded coded number table row → result ≡ Some (table, row) }
{
    let bits = coded.tag_bits();
    let row = number >> bits;
    let tag = number - (row << bits);
    let table = table_of(coded, tag)?;
    Some((table, row))
}

/// The number with which a coded index refers to a row of a table (II.24.2.6).
///
/// `None` if the index has no tag for the table, or if the number does not fit in 32 bits.
pub fn join(coded: Coded, table: TableId, row: u32) -> Option<u32>
    ensures sound { IfSome result (λ number. IsCoded coded number table row) }
    ensures complete { (number : ℕ) → IsCoded coded number table row → number < 2 ^ 32 → result ≡ Some number }
{
    let tag = tag_of(coded, table)?;
    let first = row.checked_mul(1 << coded.tag_bits())?;
    Some(first + tag)
}
