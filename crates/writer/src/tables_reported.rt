ghost use Rattle.std.specs.Prelude.{◌≡◌, slice_index};
ghost use Rattle.table_schema.specs.declared.table.TableId.{TableId as Table};
ghost use Rattle.table_schema.specs.Tables.{tables, table_number};
ghost use Rattle.schema.specs.LaidOut.{bits_of};
ghost use Rattle.metadata.specs.Metadata.{Metadata};
ghost use Rattle.root_writer.specs.TableStream.{is_sorted as is_sorted_in};

use metadata_source::ReadMetadata;
use root_writer::bit;
use table_schema::{TableId, key};

/// The row count of each table, by table number.
pub fn counts<S: ReadMetadata>(source: &S) -> [u32; 45]
    ensures { (table : Table) → slice_index result (table_number table) ≡ S.row_count source.now table }
{
    let mut counts = [0; 45];
    for table in TableId::all() {
        counts[table.number() as usize] = source.count(*table);
    }
    counts
}

/// Whether a table has a key and its rows are in order of it.
fn is_sorted<S: ReadMetadata>(source: &S, table: TableId) -> bool
    ensures { (model : Metadata) → S.shows source.now model → result ≡ is_sorted_in model table }
{
    root_writer::laws::sorted_bits_report_order();
    source.holds_one();
    key(table).is_some() && source.in_order(table)
}

/// Sorted: the bits of the keyed tables whose rows are in order.
pub fn sorted<S: ReadMetadata>(source: &S) -> u64
    ensures { (model : Metadata) → S.shows source.now model → result ≡ bits_of (is_sorted_in model) tables }
{
    schema::laws::bits_are_known();
    source.holds_one();
    let mut sorted = 0;
    for table in TableId::all() {
        sorted += bit(is_sorted(source, *table), *table);
    }
    sorted
}
