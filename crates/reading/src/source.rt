use heap_entries::{Strings, blob, guid};
use packed::{Fault, FaultCode};
use rows::{ColumnNumbers, Rows};
use std::alloc::AllocError;
use std::marker::Model;
use table_schema::TableId;

/// The rows and heaps of a metadata root, in the caller's bytes.
#[derive(Drop)]
pub struct Source<'a> {
    rows: Rows<'a>,
    strings: Strings<'a>,
    blobs: &'a [u8],
    guids: &'a [u8],
    counts: [u32; 45],
    offset: usize,
}

impl<'a> Model for Source<'a> {
    ghost use Rattle.metadata.specs.SourceAt.{SourceAt};

    ghost Value = { SourceAt };

    ghost use Rattle.reading.specs.Sources.{source_seen, IsSource};

    ghost view = { source_seen };

    ghost invariant = { IsSource };
}

impl<'a> Clone for Source<'a> {
    ghost use Rattle.std.specs.Prelude.{◌≡◌};

    ghost is_clone = { λ from to. to ≡ from };

    /// The same value. It does not allocate.
    fn clone(&self) -> Result<Self, AllocError> {
        Ok(Source {
            rows: self.rows.clone()?,
            strings: self.strings.clone()?,
            blobs: self.blobs,
            guids: self.guids,
            counts: self.counts,
            offset: self.offset,
        })
    }
}

impl<'a> Source<'a> {
    ghost use Rattle.std.specs.Prelude.{◌≡◌, ◌≤◌, ◌<◌, ◌+◌, ◌^◌, ◌↔◌, ℕ, IsTrue, length, slice_index};
    ghost use Rattle.packed.specs.Rule.{Reports, fault};
    ghost use Rattle.heap_entries.specs.Rules.{rules_of_text, rules_of_blob, rules_of_guid};
    ghost use Rattle.table_schema.specs.declared.table.TableId.{TableId as Table};
    ghost use Rattle.table_schema.specs.Tables.{table_number};
    ghost use Rattle.table_schema.specs.Columns.{columns_of};
    ghost use Rattle.schema.specs.Cells.{cell_width, numbers_at};
    ghost use Rattle.metadata.specs.Source.{rows_in, number_of, IsThere};
    ghost use Rattle.metadata.specs.RowRules.{is_said_sorted};
    ghost use Rattle.metadata.specs.SourceAt.{cell_offset};
    ghost use Rattle.rows.specs.Columns.{number_in_row};
    ghost use Rattle.reading.specs.Codes.{code_at};
    ghost use Rattle.reading.specs.RowBytes.{AreRowBytes};

    /// A source whose table stream starts at this offset.
    ///
    /// It does not read the heaps.
    pub fn new(
        rows: Rows<'a>,
        strings: Strings<'a>,
        blobs: &'a [u8],
        guids: &'a [u8],
        offset: usize,
    ) -> Source<'a>
        requires { offset + length rows.bytes ≤ 2 ^ 32 }
        ensures source { result.source ≡ record { sizes = rows.entry.sizes; numbers = numbers_at rows.entry.bytes rows.entry.sizes; texts = strings.entry; blobs = blobs.now; guids = guids.now } }
        ensures offset { result.offset ≡ offset }
    {
        let counts = rows.layout().counts();
        Source {
            rows,
            strings,
            blobs,
            guids,
            counts,
            offset,
        }
    }

    /// The number of rows of a table.
    pub fn count(&self, table: TableId) -> u32
        ensures value { result ≡ rows_in self.now.source table }
        ensures limit { result ≤ 0xFFFFFF }
    {
        self.rows.layout().count(table)
    }

    /// The number of rows of each table, by table number.
    pub fn counts(&self) -> &[u32; 45]
        ensures { (table : Table) → slice_index result.now (table_number table) ≡ rows_in self.now.source table }
    {
        &self.counts
    }

    /// Whether the `Sorted` field says that the table is in order of its key (II.24.2.6).
    pub fn is_said_sorted(&self, table: TableId) -> bool
        ensures { result ≡ is_said_sorted self.now.source table }
    {
        self.rows.layout().sorted() >> table.number() & 1 == 1
    }

    /// The number in a column of a row. Rows count from 1.
    #[tactic(auto, unfolding(metadata::specs::Source::number_of))]
    pub fn number(&self, table: TableId, row: u32, column: usize) -> u32
        requires first { 1 ≤ row }
        requires last { row ≤ rows_in self.now.source table }
        requires column { column < length (columns_of table) }
        ensures value { result ≡ number_of self.now.source table row column }
        ensures fits { result < 256 ^ cell_width self.now.source.sizes table column }
    {
        schema::laws::numbers_are_read();
        self.rows.number(table, row, column)
    }

    /// The numbers in a column of a table, to be read row by row.
    #[tactic(auto, unfolding(metadata::specs::Source::number_of))]
    pub fn column(&self, table: TableId, column: usize) -> ColumnNumbers<'a>
        requires { column < length (columns_of table) }
        ensures count { result.count ≡ rows_in self.now.source table }
        ensures numbers { (row : ℕ) → 1 ≤ row → row ≤ rows_in self.now.source table
            → number_in_row result row ≡ number_of self.now.source table row column }
    {
        schema::laws::numbers_are_read();
        self.rows.column(table, column)
    }

    /// HeapSizes: the heaps whose indexes have four bytes (II.24.2.6).
    pub fn heap_sizes(&self) -> u8
        ensures { result ≡ self.now.source.sizes.heap_sizes }
    {
        self.rows.layout().heap_sizes()
    }

    /// The bytes of the rows of a table from `first` up to but not including `past`.
    #[tactic(auto, unfolding(metadata::specs::Source::number_of))]
    pub fn row_bytes(&self, table: TableId, first: u32, past: u32) -> &'a [u8]
        requires first { 1 ≤ first }
        requires order { first ≤ past }
        requires last { past ≤ rows_in self.now.source table + 1 }
        ensures { AreRowBytes self.now.source table first past result.now }
    {
        schema::laws::numbers_are_read();
        self.rows.row_bytes(table, first, past)
    }

    /// The fault of a rule for a cell.
    #[tactic(auto, unfolding(metadata::specs::SourceAt::cell_offset))]
    pub fn fault(&self, code: FaultCode, table: TableId, row: u32, column: usize) -> Fault
        requires first { 1 ≤ row }
        requires last { row ≤ rows_in self.now.source table }
        requires column { column < length (columns_of table) }
        ensures { result ≡ fault code (cell_offset self.now table row column) }
    {
        let offset = self.offset + self.rows.place(table, row, column);
        Fault::new(code, offset as u64)
    }

    /// Whether a row exists.
    pub fn has_row(&self, table: TableId, row: u32) -> bool
        ensures { IsTrue result ↔ IsThere self.now.source (record { table = table; row = row }) }
    {
        1 <= row && row <= self.count(table)
    }

    /// The bytes of `#Strings`.
    pub fn texts(&self) -> &'a [u8]
        ensures { result.now ≡ self.now.source.texts }
    {
        self.strings.heap()
    }

    /// The heap of strings, which was scanned once as a whole.
    pub fn strings(&self) -> &Strings<'a>
        ensures { result.now ≡ self.now.source.texts }
    {
        &self.strings
    }

    /// The bytes of `#Blob`.
    pub fn blobs(&self) -> &'a [u8]
        ensures { result.now ≡ self.now.source.blobs }
    {
        self.blobs
    }

    /// The bytes of `#GUID`.
    pub fn guids(&self) -> &'a [u8]
        ensures { result.now ≡ self.now.source.guids }
    {
        self.guids
    }

    /// Checks that a string is at this index of `#Strings` (II.24.2.3).
    ///
    /// # Errors
    ///
    /// The code of the rule of the heap that the index breaks.
    pub fn check_text(&self, index: u32) -> Result<(), FaultCode>
        ensures { (offset : ℕ) → Reports (rules_of_text self.now.source.texts index offset) (code_at offset result) }
    {
        match self.strings().check(index) {
            Ok(()) => Ok(()),
            Err(found) => Err(found.code()),
        }
    }

    /// Checks that a blob is at this index of `#Blob` (II.24.2.4).
    ///
    /// # Errors
    ///
    /// The code of the rule of the heap that the index breaks.
    pub fn check_blob(&self, index: u32) -> Result<(), FaultCode>
        ensures { (offset : ℕ) → Reports (rules_of_blob self.now.source.blobs index offset) (code_at offset result) }
    {
        match blob(self.blobs(), index) {
            Ok(_) => Ok(()),
            Err(found) => Err(found.code()),
        }
    }

    /// Checks that a GUID has this number, or that the number is null (II.24.2.5).
    ///
    /// # Errors
    ///
    /// The code of the rule of the heap that the number breaks.
    pub fn check_guid(&self, index: u32) -> Result<(), FaultCode>
        ensures { (offset : ℕ) → Reports (rules_of_guid self.now.source.guids index offset) (code_at offset result) }
    {
        match guid(self.guids(), index) {
            Ok(_) => Ok(()),
            Err(found) => Err(found.code()),
        }
    }
}
