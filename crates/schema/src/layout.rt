use crate::header::Header;
use crate::table_layout::TableLayout;
use std::alloc::AllocError;
use std::marker::Model;
use table_schema::{Column, TableId, columns};

/// The offset of every cell of a table stream (II.24.2.6).
///
/// Widths and offsets follow from the row counts and HeapSizes. They are computed once, when the
/// layout is created, so that each call takes constant time. A layout has about a kilobyte and does
/// not borrow the stream.
#[derive(Drop)]
pub struct Layout {
    header: Header,
    table_layouts: [TableLayout; 38],
}

impl Model for Layout {
    ghost use Rattle.schema.specs.Sizes.{Sizes};
    ghost use Rattle.schema.specs.Kept.{sizes_kept, AreTableLayouts};

    ghost Value = { Sizes };

    ghost view = { λ layout. sizes_kept layout.header };

    ghost invariant = { λ layout. AreTableLayouts (sizes_kept layout.header) layout.table_layouts };
}

impl Clone for Layout {
    ghost use Rattle.std.specs.Prelude.{◌≡◌, ⊤};

    ghost is_clone = { λ from to. to ≡ from };

    ghost is_infallible = { λ _. ⊤ };

    /// The same value. It does not allocate, and never fails.
    fn clone(&self) -> Result<Self, AllocError> {
        Ok(Layout {
            header: self.header,
            table_layouts: self.table_layouts,
        })
    }
}

impl Header {
    ghost use Rattle.std.specs.Prelude.{◌≤◌, ◌^◌, ◌≡◌};
    ghost use Rattle.schema.specs.Offsets.{table_start};
    ghost use Rattle.schema.specs.Kept.{sizes_kept, IsTableLayout};

    /// The offsets of a table that begins at `start`.
    fn table_layout(&self, table: TableId, start: usize) -> TableLayout
        requires low { start ≤ 2 ^ 35 }
        requires start { start ≡ table_start (sizes_kept self.now) table }
        ensures { IsTableLayout (sizes_kept self.now) table result }
    {
        let mut offsets = [0; 10];
        let mut row_width = 0;
        let columns = columns(table);
        for (index, column) in columns.iter().enumerate() {
            offsets[index] = row_width;
            row_width += self.width(*column) as u8;
        }
        offsets[columns.len()] = row_width;
        TableLayout {
            start,
            row_width,
            offsets,
        }
    }
}

impl Layout {
    ghost use Rattle.std.specs.Prelude.{◌≡◌, ◌≢◌, ◌≤◌, ◌<◌, ◌+◌, ℕ, length, slice_index};
    ghost use Rattle.table_schema.specs.declared.table.TableId.{TableId as Table};
    ghost use Rattle.table_schema.specs.Tables.{table_number};
    ghost use Rattle.table_schema.specs.Columns.{columns_of, column_at};
    ghost use Rattle.schema.specs.Sizes.{sizes_by_number, count_of, width_of, IsWidth};
    ghost use Rattle.schema.specs.Offsets.{row_width, row_start, cell_start, tables_end};
    ghost use Rattle.schema.specs.Kept.{sizes_kept, AreFew};

    /// The layout with these sizes.
    pub(crate) fn new(header: Header) -> Layout
        requires { AreFew (sizes_kept header) }
        ensures { result ≡ sizes_kept header }
    {
        let mut table_layouts = [TableLayout {
            start: 0,
            row_width: 0,
            offsets: [0; 10],
        }; 38];
        let mut start = header.body;
        for (table_index, table) in TableId::all().iter().enumerate() {
            let table_layout = header.table_layout(*table, start);
            table_layouts[table_index] = table_layout;
            start += header.count(*table) as usize * table_layout.row_width as usize;
        }
        Layout {
            header,
            table_layouts,
        }
    }

    /// The layout of tables with these row counts, by table number, and this HeapSizes.
    ///
    /// Counts at numbers that no table has are not read. Valid then names the tables that have rows,
    /// and Sorted is 0.
    pub fn of(counts: &[u32; 45], heap_sizes: u8) -> Layout
        requires counts { (table : Table) → slice_index counts.now (table_number table) ≤ 0xFFFFFF }
        requires heap_sizes { heap_sizes < 8 }
        ensures value { result ≡ sizes_by_number counts.now heap_sizes }
        ensures each { (table : Table) → count_of result table ≡ slice_index counts.now (table_number table) }
    {
        let mut listed = [0; 38];
        let mut body = 24;
        for (table_index, table) in TableId::all().iter().enumerate() {
            let count = counts[table.number() as usize];
            listed[table_index] = count;
            if count > 0 {
                body += 4;
            }
        }
        Layout::new(Header {
            counts: listed,
            heap_sizes,
            sorted: 0,
            body,
        })
    }

    /// The number of rows of a table, at most 0xFFFFFF.
    pub fn count(&self, table: TableId) -> u32
        ensures value { result ≡ count_of self.now table }
        ensures limit { result ≤ 0xFFFFFF }
    {
        let header = &self.header;
        header.count(table)
    }

    /// The number of rows of each table, by table number; 0 at a number that no table has.
    pub fn counts(&self) -> [u32; 45]
        ensures each { (table : Table) → slice_index result (table_number table) ≡ count_of self.now table }
        ensures others { (number : ℕ) → ((table : Table) → table_number table ≢ number) → slice_index result number ≡ 0 }
    {
        let mut counts = [0; 45];
        for table in TableId::all() {
            counts[table.number() as usize] = self.count(*table);
        }
        counts
    }

    /// Sorted: the tables that claim to be sorted, as the bits of their numbers.
    pub fn sorted(&self) -> u64
        ensures { result ≡ self.now.sorted }
    {
        self.header.sorted
    }

    /// HeapSizes: the heaps whose indexes have four bytes (II.24.2.6).
    pub fn heap_sizes(&self) -> u8
        ensures { result ≡ self.now.heap_sizes }
    {
        self.header.heap_sizes
    }

    /// The number of bytes of a column: 1, 2 or 4.
    pub fn width(&self, column: Column) -> usize
        ensures value { result ≡ width_of self.now column }
        ensures known { IsWidth result }
    {
        let header = &self.header;
        header.width(column)
    }

    /// The number of bytes of a row of a table.
    pub fn row_width(&self, table: TableId) -> usize
        ensures { result ≡ row_width self.now table }
    {
        let table_layout = &self.table_layouts[table.table_index()];
        table_layout.row_width as usize
    }

    /// The offset of a row in the stream. For the row after the last one, the end of its table.
    pub fn row_start(&self, table: TableId, row: u32) -> usize
        requires first { 1 ≤ row }
        requires last { row ≤ count_of self.now table + 1 }
        ensures { result ≡ row_start self.now table row }
    {
        let table_layout = &self.table_layouts[table.table_index()];
        let rows_before = (row - 1) as usize;
        table_layout.start + rows_before * table_layout.row_width as usize
    }

    /// The offset of a cell in the stream.
    pub fn cell_start(&self, table: TableId, row: u32, column: usize) -> usize
        requires first { 1 ≤ row }
        requires last { row ≤ count_of self.now table }
        requires column { column < length (columns_of table) }
        ensures value { result ≡ cell_start self.now table row column }
        ensures within { result + width_of self.now (column_at table column) ≤ tables_end self.now }
    {
        let table_layout = &self.table_layouts[table.table_index()];
        let offset = table_layout.offsets[column];
        table_layout.start + (row - 1) as usize * table_layout.row_width as usize + offset as usize
    }

    /// The number of bytes of a cell in a column: 1, 2 or 4.
    pub fn cell_width(&self, table: TableId, column: usize) -> usize
        requires { column < length (columns_of table) }
        ensures value { result ≡ width_of self.now (column_at table column) }
        ensures known { IsWidth result }
    {
        let table_layout = &self.table_layouts[table.table_index()];
        (table_layout.offsets[column + 1] - table_layout.offsets[column]) as usize
    }

    /// The offset of the end of the last table.
    pub(crate) fn end(&self) -> usize
        ensures { result ≡ tables_end self.now }
    {
        let last = TableId::GenericParamConstraint;
        self.row_start(last, self.count(last) + 1)
    }
}
