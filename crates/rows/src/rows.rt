ghost use Rattle.std.specs.Prelude.{◌≡◌, ◌≤◌, ◌<◌, ◌+◌, ◌-◌, ◌^◌, length};
ghost use Rattle.packed.specs.Number.{little_endian};
ghost use Rattle.packed.specs.Offsets.{part};
ghost use Rattle.schema.specs.Sizes.{IsWidth};

use crate::column_numbers::ColumnNumbers;
use packed::{u16_at, u32_at};
use schema::Layout;
use std::alloc::AllocError;
use std::marker::Model;
use table_schema::TableId;

/// The number in `width` bytes at offset `offset`.
#[inline]
pub(crate) fn number_of(bytes: &[u8], offset: usize, width: usize) -> u32
    requires known { IsWidth width }
    requires within { offset + width ≤ length bytes.now }
    ensures value { result ≡ little_endian (part bytes.now offset width) }
    ensures fits { result < 256 ^ width }
{
    match width {
        4 => u32_at(bytes, offset),
        2 => u32::from(u16_at(bytes, offset)),
        _ => u32::from(bytes[offset]),
    }
}

/// The bytes from an offset up to another one.
fn bytes_between(bytes: &[u8], start: usize, end: usize) -> &[u8]
    requires order { start ≤ end }
    requires within { end ≤ length bytes.now }
    ensures { result.now ≡ part bytes.now start (end - start) }
{
    &bytes[start..end]
}

/// The cells of a table stream, read from the bytes of the stream (II.24.2.6).
///
/// A cell is given by its table, its row, counted from 1, and its column, counted from 0.
#[derive(Drop)]
pub struct Rows<'a> {
    bytes: &'a [u8],
    layout: Layout,
}

impl<'a> Model for Rows<'a> {
    ghost use Rattle.rows.specs.Cells.{Stream, IsWhole};

    ghost Value = { Stream };

    ghost view = { λ rows. record { bytes = rows.bytes.now; sizes = rows.layout } };

    ghost invariant = { λ rows. IsWhole (record { bytes = rows.bytes.now; sizes = rows.layout }) };
}

impl<'a> Clone for Rows<'a> {
    ghost use Rattle.std.specs.Prelude.{◌≡◌, ⊤};

    ghost is_clone = { λ from to. to ≡ from };

    ghost is_infallible = { λ _. ⊤ };

    /// The same value. It does not allocate, and never fails.
    fn clone(&self) -> Result<Self, AllocError> {
        Ok(Rows {
            bytes: self.bytes,
            layout: self.layout.clone()?,
        })
    }
}

impl<'a> Rows<'a> {
    ghost use Rattle.std.specs.Prelude.{◌≡◌, ◌≤◌, ◌<◌, ◌+◌, ◌-◌, ◌*◌, ◌^◌, ℕ, List, length};
    ghost use Rattle.table_schema.specs.Columns.{columns_of};
    ghost use Rattle.schema.specs.Sizes.{count_of};
    ghost use Rattle.schema.specs.Offsets.{cell_start, row_start, row_width};
    ghost use Rattle.schema.specs.LaidOut.{IsTableStream, IsLaidOut, StandsAt, number_bytes, number_in};
    ghost use Rattle.schema.specs.Cells.{number_at, cell_width};
    ghost use Rattle.rows.specs.Cells.{bytes_before, number_in_rows};
    ghost use Rattle.rows.specs.Columns.{number_in_row};

    /// The rows of a table stream, with the layout that [`Layout::read`] returned for these bytes.
    pub fn new(bytes: &'a [u8], layout: Layout) -> Rows<'a>
        requires { IsTableStream bytes.now layout }
        ensures { result ≡ record { bytes = bytes.now; sizes = layout } }
    {
        schema::laws::tables_end_within();
        Rows { bytes, layout }
    }

    /// The layout of the stream.
    pub fn layout(&self) -> &Layout
        ensures { result.now ≡ self.now.sizes }
    {
        &self.layout
    }

    /// The offset of a cell, in bytes from the start of the stream.
    pub fn place(&self, table: TableId, row: u32, column: usize) -> usize
        requires first { 1 ≤ row }
        requires last { row ≤ count_of self.now.sizes table }
        requires column { column < length (columns_of table) }
        ensures value { result ≡ cell_start self.now.sizes table row column }
        ensures within { result + cell_width self.now.sizes table column ≤ length self.now.bytes }
        // It is the number of bytes before the cell: the header and all cells of earlier tables, rows and columns.
        ensures behind { (numbers : List (List (List ℕ))) → IsLaidOut self.now.bytes self.now.sizes numbers
            → result ≡ self.now.sizes.body + length (bytes_before self.now.sizes numbers table row column) }
        // The bytes of the cell are at this offset.
        ensures stands { (numbers : List (List (List ℕ))) → IsLaidOut self.now.bytes self.now.sizes numbers
            → StandsAt self.now.bytes result (number_bytes (cell_width self.now.sizes table column) (number_in numbers table row column)) }
    {
        table_schema::laws::tables_stand();
        schema::laws::cells_stand();
        self.layout.cell_start(table, row, column)
    }

    /// The number in a cell.
    pub fn number(&self, table: TableId, row: u32, column: usize) -> u32
        requires first { 1 ≤ row }
        requires last { row ≤ count_of self.now.sizes table }
        requires column { column < length (columns_of table) }
        ensures value { result ≡ number_at self.now.bytes self.now.sizes table row column }
        // It is the cell's number in any list of numbers that the stream encodes.
        ensures cell { (numbers : List (List (List ℕ))) → IsLaidOut self.now.bytes self.now.sizes numbers
            → result ≡ number_in numbers table row column }
        ensures fits { result < 256 ^ cell_width self.now.sizes table column }
    {
        schema::laws::cells_stand();
        let offset = self.place(table, row, column);
        number_of(self.bytes, offset, self.layout.cell_width(table, column))
    }

    /// The bytes of the rows of a table from `first` up to but not including `past`.
    pub fn row_bytes(&self, table: TableId, first: u32, past: u32) -> &'a [u8]
        requires first { 1 ≤ first }
        requires order { first ≤ past }
        requires last { past ≤ count_of self.now.sizes table + 1 }
        ensures value { result.now ≡ part self.now.bytes (row_start self.now.sizes table first) ((past - first) * row_width self.now.sizes table) }
        ensures len { length result.now ≡ (past - first) * row_width self.now.sizes table }
        // The number of each cell is read at its offset in them.
        ensures numbers { (row column : ℕ) → first ≤ row → row < past → column < length (columns_of table)
            → number_at self.now.bytes self.now.sizes table row column ≡ number_in_rows result.now self.now.sizes table (row - first) column }
    {
        table_schema::laws::tables_stand();
        let start = self.layout.row_start(table, first);
        let end = self.layout.row_start(table, past);
        bytes_between(self.bytes, start, end)
    }

    /// The numbers in a column of a table, to be read row by row.
    pub fn column(&self, table: TableId, column: usize) -> ColumnNumbers<'a>
        requires { column < length (columns_of table) }
        ensures count { result.count ≡ count_of self.now.sizes table }
        ensures numbers { (row : ℕ) → 1 ≤ row → row ≤ count_of self.now.sizes table
            → number_in_row result row ≡ number_at self.now.bytes self.now.sizes table row column }
    {
        let count = self.layout.count(table);
        let step = self.layout.row_width(table);
        let width = self.layout.cell_width(table, column);
        let bytes = if count == 0 {
            &[]
        } else {
            let first = self.place(table, 1, column);
            let last = self.place(table, count, column);
            bytes_between(self.bytes, first, last + width)
        };
        ColumnNumbers {
            bytes,
            step,
            width,
            count,
        }
    }
}
