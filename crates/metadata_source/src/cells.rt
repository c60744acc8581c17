use crate::signature_bytes::SignatureBytes;
use crate::source::ReadMetadata;
use reading::{CellRef, RunCursors};
use rows::ColumnNumbers;
use std::alloc::{AllocError, Global};
use table_schema::{SigKind, TableId};

/// A metadata whose cells can be read.
pub trait ReadCells: ReadMetadata {
    ghost use Rattle.std.specs.Prelude.{◌≡◌, ◌≢◌, ◌≤◌, ◌<◌, ℕ, IfOk, IfSome, Option};
    ghost use Rattle.table_schema.specs.declared.column.SigKind.{SigKind as TheKind};
    ghost use Rattle.table_schema.specs.declared.column.ColumnKind.TheVariants.{Signature};
    ghost use Rattle.table_schema.specs.CellColumns.{cell_count};
    ghost use Rattle.metadata.specs.Metadata.{Metadata, cell_in};
    ghost use Rattle.metadata.specs.Valid.{kind_at};
    ghost use Rattle.reading.specs.Shown.{Shows};
    ghost use Rattle.reading.specs.declared.run_cursors.RunCursors.{RunCursors as Cursors};
    ghost use Rattle.metadata_source.specs.ColumnNumbers.{AreIndexesIn, AreNumbersIn};
    ghost use Rattle.metadata_source.specs.HeapCells.{AreTextsIn, AreBlobsIn};
    ghost use Rattle.metadata_source.specs.SharedBlobs.{CellId, HasCell, ShareBlob, cell_by_id};
    ghost use Rattle.metadata_source.specs.SignatureBytes.{AreBytesOf};

    // The index of a cell's value in the heap that it is read from, if it is read from one.
    ghost heap_index: { Self → CellId → Option ℕ };

    // The cursors are at owners of this metadata.
    ghost follow: { Self → Cursors → Type 0 };

    /// Two cells in columns of one kind are equal if their blobs are at one index of the blob heap. Nothing is done.
    fn shared_blobs_are_one(&self)
        ensures { (model : Metadata) → Self.shows self.now model → (first second : CellId) → HasCell model first → HasCell model second
            → ShareBlob (Self.heap_index self.now) first second → cell_by_id model first ≡ cell_by_id model second };

    /// A cell that is not a signature. Texts and blobs are borrowed.
    fn cell(&self, table: TableId, row: u32, cell: usize) -> CellRef<'_>
        requires first { 1 ≤ row }
        requires last { row ≤ Self.row_count self.now table }
        requires cell { cell < cell_count table }
        requires kind { (encoded : TheKind) → kind_at table cell ≢ Signature encoded }
        ensures { (model : Metadata) → Self.shows self.now model → Shows (kind_at table cell) result (cell_in model table row cell) };

    /// Cursors for the runs of members, at no owner.
    fn run_cursors(&self) -> RunCursors
        ensures { Self.follow self.now result };

    /// A cell that is not a signature, in a pass over the rows of a table, as [`ReadCells::cell`] returns it.
    ///
    /// With the cursors a pass in ascending order passes over null starts once.
    fn cell_onward(
        &self,
        cursors: &mut RunCursors,
        table: TableId,
        row: u32,
        cell: usize,
    ) -> CellRef<'_>
        requires cursors { Self.follow self.now cursors.old }
        requires first { 1 ≤ row }
        requires last { row ≤ Self.row_count self.now table }
        requires cell { cell < cell_count table }
        requires kind { (encoded : TheKind) → kind_at table cell ≢ Signature encoded }
        ensures cursors { Self.follow self.now cursors.new }
        ensures cell { (model : Metadata) → Self.shows self.now model → Shows (kind_at table cell) result (cell_in model table row cell) };

    /// The bytes of a signature, in a column of signatures of a kind (II.23.2).
    ///
    /// # Errors
    ///
    /// Only if out of memory.
    fn signature(
        &self,
        alloc: Global,
        kind: SigKind,
        table: TableId,
        row: u32,
        cell: usize,
    ) -> Result<SignatureBytes<'_>, AllocError>
        requires first { 1 ≤ row }
        requires last { row ≤ Self.row_count self.now table }
        requires cell { cell < cell_count table }
        requires kind { kind_at table cell ≡ Signature kind }
        ensures { (model : Metadata) → Self.shows self.now model
            → IfOk result (λ bytes. AreBytesOf kind bytes (cell_in model table row cell)) };

    /// The index of a cell's value in the heap that it is read from, in a column of texts, blobs or signatures (II.24.2.3,
    /// II.24.2.4). `None` if the cells are not read from heaps.
    fn index_in_heap(&self, table: TableId, row: u32, cell: usize) -> Option<u32>
        requires first { 1 ≤ row }
        requires last { row ≤ Self.row_count self.now table }
        requires cell { cell < cell_count table }
        ensures { result ≡ Self.heap_index self.now (record { table = table; row = row; cell_index = cell }) };

    /// The numbers in the column of a cell, if the cells are read from a root (II.24.2.6). Each is the index of its cell's
    /// value. In a column of numbers, or of rows of one table, it is also that of its cell; a coded index is the number of
    /// the row that it names, or has only a tag if it is null. `None` if the cells are not read from a root.
    fn column_numbers(&self, table: TableId, cell: usize) -> Option<ColumnNumbers<'_>>
        requires { cell < cell_count table }
        ensures count { IfSome result (λ numbers. numbers.count ≡ Self.row_count self.now table) }
        ensures indexes { IfSome result (λ numbers. AreIndexesIn (Self.heap_index self.now) table cell (Self.row_count self.now table) numbers) }
        ensures numbers { (model : Metadata) → Self.shows self.now model
            → IfSome result (λ numbers. AreNumbersIn model table cell (Self.row_count self.now table) numbers) };

    /// The bytes of the strings heap that has the text of each cell, at the cell's index (II.24.2.3). `None` if the cells
    /// are not read from heaps.
    fn strings_heap(&self) -> Option<&[u8]>
        ensures { (model : Metadata) → Self.shows self.now model → IfSome result (λ heap. AreTextsIn (Self.heap_index self.now) heap.now model) };

    /// The bytes of the blob heap that has the blob of each cell in a column of blobs, at the cell's index (II.24.2.4).
    /// `None` if the cells are not read from heaps.
    fn blob_heap(&self) -> Option<&[u8]>
        ensures { (model : Metadata) → Self.shows self.now model → IfSome result (λ heap. AreBlobsIn (Self.heap_index self.now) heap.now model) };
}
