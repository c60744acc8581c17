use table_schema::{Coded, Column, ColumnKind, TableId};

/// The sizes in the header of a table stream (II.24.2.6).
#[derive(Clone, Copy)]
pub struct Header {
    /// The number of rows of each table, by table index.
    pub counts: [u32; 38],
    /// HeapSizes: the heaps whose indexes have four bytes.
    pub heap_sizes: u8,
    /// Sorted: the tables that claim to be sorted, as the bits of their numbers.
    pub sorted: u64,
    /// The offset of the first table, in bytes from the start of the stream.
    pub body: usize,
}

impl Header {
    ghost use Rattle.std.specs.Prelude.{◌≡◌, ◌≤◌};
    ghost use Rattle.schema.specs.Sizes.{count_of, coded_width, row_index_width, heap_width, width_of, IsWidth};
    ghost use Rattle.schema.specs.Kept.{sizes_kept};

    /// The number of rows of a table.
    pub fn count(&self, table: TableId) -> u32
        ensures { result ≡ count_of (sizes_kept self.now) table }
    {
        self.counts[table.table_index()]
    }

    /// The number of bytes of a column.
    pub fn width(&self, column: Column) -> usize
        ensures value { result ≡ width_of (sizes_kept self.now) column }
        ensures known { IsWidth result }
        ensures limit { result ≤ 4 }
    {
        match column.kind {
            ColumnKind::U8 | ColumnKind::Padding => 1,
            ColumnKind::U16 => 2,
            ColumnKind::U32 => 4,
            ColumnKind::Text => self.heap_index(1),
            ColumnKind::Guid => self.heap_index(2),
            ColumnKind::Blob | ColumnKind::Signature(_) => self.heap_index(4),
            ColumnKind::Row(table) | ColumnKind::List(table) => self.row_index(table),
            ColumnKind::Coded(coded) => self.coded_index(coded),
        }
    }

    /// The number of bytes of an index into the heap with this bit of HeapSizes.
    fn heap_index(&self, bit: u8) -> usize
        requires { 1 ≤ bit }
        ensures value { result ≡ heap_width (sizes_kept self.now) bit }
        ensures known { IsWidth result }
        ensures limit { result ≤ 4 }
    {
        narrow_or_wide(self.heap_sizes / bit % 2 == 0)
    }

    /// The number of bytes of a simple index or a list index into a table.
    fn row_index(&self, table: TableId) -> usize
        ensures value { result ≡ row_index_width (sizes_kept self.now) table }
        ensures known { IsWidth result }
        ensures limit { result ≤ 4 }
    {
        narrow_or_wide(self.count(table) < 1 << 16)
    }

    /// The number of bytes of a coded index.
    fn coded_index(&self, coded: Coded) -> usize
        ensures value { result ≡ coded_width (sizes_kept self.now) coded }
        ensures known { IsWidth result }
        ensures limit { result ≤ 4 }
    {
        let limit = 1 << (16 - coded.tag_bits());
        narrow_or_wide(self.are_below(limit, coded.tables()))
    }

    ghost use Rattle.std.specs.List.{list_all};
    ghost use Rattle.schema.specs.Sizes.{is_below};

    /// Whether each of these tables has fewer rows than a limit.
    fn are_below(&self, limit: u32, listed: &[Option<TableId>]) -> bool
        ensures { result ≡ list_all (is_below (sizes_kept self.now) limit) listed.now }
    {
        listed.iter().all(|table| self.is_below(limit, table))
    }

    /// Whether a table has fewer rows than a limit; true for an unused tag.
    fn is_below(&self, limit: u32, table: &Option<TableId>) -> bool
        ensures { result ≡ is_below (sizes_kept self.now) limit table.now }
    {
        match table {
            Some(table) => self.count(*table) < limit,
            None => true,
        }
    }
}

ghost use Rattle.std.specs.Prelude.{◌≡◌, ◌≤◌};
ghost use Rattle.schema.specs.Sizes.{narrow_or_wide as index_width, IsWidth};

/// The number of bytes of an index: two if it is narrow, else four.
fn narrow_or_wide(narrow: bool) -> usize
    ensures value { result ≡ index_width narrow }
    ensures known { IsWidth result }
    ensures limit { result ≤ 4 }
{
    if narrow { 2 } else { 4 }
}
