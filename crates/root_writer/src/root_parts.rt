ghost use Rattle.std.specs.Prelude.{◌≡◌, ◌≤◌, length, sum_by};
ghost use Rattle.table_schema.specs.Tables.{tables};
ghost use Rattle.root_writer.specs.Written.{Puts};
ghost use Rattle.root_writer.specs.Flat.{cells_of};
ghost use Rattle.root_writer.specs.Root.{table_bytes, content, root_bytes, CanBePut};

use crate::held::HeldKinds;
use crate::sizes::StreamSizes;
use crate::writer::Writer;
use root::Kind;
use schema::Layout;

/// The parts of a root (II.24.2). All are known before the first byte is written.
#[derive(Clone, Copy)]
pub struct RootParts<'a> {
    /// The version string, without NUL.
    pub version: &'a str,
    /// The size of each stream in bytes, with padding.
    pub sizes: StreamSizes,
    /// The row counts, and the widths of the columns.
    pub layout: &'a Layout,
    /// HeapSizes: which heaps have indexes of four bytes (II.24.2.6).
    pub heap_sizes: u8,
    /// Sorted: which tables are in order of their keys (II.24.2.6).
    pub sorted: u64,
    /// The length of the table stream in bytes, without padding.
    pub tables_len: usize,
    /// The numbers of all rows, one per column, by table, row and column.
    pub numbers: &'a [u32],
    /// The `#Strings` heap, without padding.
    pub strings: &'a [u8],
    /// The `#US` heap, with or without padding.
    pub user_strings: &'a [u8],
    /// The `#GUID` heap.
    pub guids: &'a [u8],
    /// The `#Blob` heap, without padding.
    pub blobs: &'a [u8],
}

impl Writer {
    /// Writes the table stream: its header, the rows of all tables, and the padding (II.24.2.6).
    fn put_table_stream(&mut self, parts: &RootParts)
        requires many { length parts.now.numbers.now ≡ sum_by (cells_of parts.now.layout.now) tables }
        requires room { length (table_bytes parts.now) ≤ self.old.room }
        ensures { Puts self.old self.new (table_bytes parts.now) }
    {
        self.put_table_header(parts.layout, parts.heap_sizes, parts.sorted);
        self.put_tables(parts.layout, parts.numbers);
        self.put_padding(parts.tables_len);
    }

    /// Writes a stream, padded to a multiple of four (II.24.2.2).
    fn put_stream(&mut self, parts: &RootParts, kind: Kind)
        requires many { length parts.now.numbers.now ≡ sum_by (cells_of parts.now.layout.now) tables }
        requires room { length (content parts.now kind) ≤ self.old.room }
        ensures { Puts self.old self.new (content parts.now kind) }
    {
        match kind {
            Kind::Tables => self.put_table_stream(parts),
            Kind::Strings => self.put_padded(parts.strings),
            Kind::UserStrings => self.put_padded(parts.user_strings),
            Kind::Guids => self.put_padded(parts.guids),
            Kind::Blobs => self.put_padded(parts.blobs),
        }
    }

    /// Writes a whole root: all headers, and then each stream that has bytes.
    pub fn put_root(&mut self, parts: &RootParts)
        requires parts { CanBePut parts.now }
        requires room { length (root_bytes parts.now) ≤ self.old.room }
        ensures { Puts self.old self.new (root_bytes parts.now) }
    {
        let held = HeldKinds::new(&parts.sizes);
        let kinds = held.as_slice();
        self.put_heading(parts.version, &parts.sizes, kinds);
        for kind in kinds {
            self.put_stream(parts, *kind);
        }
    }
}
