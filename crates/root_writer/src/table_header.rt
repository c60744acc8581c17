ghost use Rattle.std.specs.Prelude.{◌≡◌, ◌+◌, ◌^◌, ◌<◌, ◌≤◌, length};
ghost use Rattle.table_schema.specs.Tables.{tables};
ghost use Rattle.schema.specs.LaidOut.{bits_of, number_bytes, counts_bytes};
ghost use Rattle.root_writer.specs.Written.{Puts};
ghost use Rattle.root_writer.specs.TableHeader.{bit_if, count_bytes, is_counted, table_header};

use crate::writer::Writer;
use schema::Layout;
use table_schema::TableId;

/// The bit of a table in Valid or Sorted if it is set, else 0 (II.24.2.6).
pub fn bit(set: bool, table: TableId) -> u64
    ensures { result ≡ bit_if set table }
{
    if set { 1 << table.number() } else { 0 }
}

/// Valid: the bits of the tables that have rows.
fn valid(layout: &Layout) -> u64
    ensures { result ≡ bits_of (is_counted layout.now) tables }
{
    schema::laws::bits_are_known();
    let mut valid = 0;
    for table in TableId::all() {
        valid += bit(layout.count(*table) > 0, *table);
    }
    valid
}

impl Writer {
    /// Writes the count of a table that has rows.
    fn put_count(&mut self, count: u32)
        requires { length (count_bytes count) ≤ self.old.room }
        ensures { Puts self.old self.new (count_bytes count) }
    {
        if count > 0 {
            self.put_number(4, count);
        }
    }

    /// Writes the counts of the tables that have rows.
    fn put_counts(&mut self, layout: &Layout)
        requires { length (counts_bytes (is_counted layout.now) layout.now tables) ≤ self.old.room }
        ensures { Puts self.old self.new (counts_bytes (is_counted layout.now) layout.now tables) }
    {
        for table in TableId::all() {
            self.put_count(layout.count(*table));
        }
    }

    /// Writes the header of a table stream with these row counts (II.24.2.6).
    #[tactic(auto, unfolding(crate::specs::TableHeader::table_header))]
    pub fn put_table_header(&mut self, layout: &Layout, heap_sizes: u8, sorted: u64)
        requires { length (table_header heap_sizes sorted layout.now) ≤ self.old.room }
        ensures { Puts self.old self.new (table_header heap_sizes sorted layout.now) }
    {
        self.put(&[0, 0, 0, 0, 2, 0, heap_sizes, 1]);
        self.put_long(valid(layout));
        self.put_long(sorted);
        self.put_counts(layout);
    }
}
