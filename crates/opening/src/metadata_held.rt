ghost use Rattle.std.specs.Prelude.{Some};
ghost use Rattle.table_schema.specs.CellColumns.{column_of};
ghost use Rattle.metadata.specs.Source.{number_of};
ghost use Rattle.metadata.specs.Model.{IsModel};
ghost use Rattle.metadata.specs.SourceAt.{source_of};
ghost use Rattle.reading.specs.Cursors.{AreCursors};
ghost use Rattle.opening.specs.Views.{row_count};

use crate::cell_cursor::cell_in_pass;
use crate::view::View;
use metadata_source::{MemberList, ReadCells, ReadMetadata, SignatureBytes};
use reading::{CellRef, RunCursors, is_text_at, start_at};
use rows::ColumnNumbers;
use std::alloc::{AllocError, Global};
use table_schema::{SigKind, TableId, column_of_cell};

impl ReadMetadata for View<'_> {
    ghost shows = { IsModel };

    ghost row_count = { row_count };

    ghost key_number = { λ root table cell row. number_of (source_of root) table row (column_of table cell) };

    fn holds_one(&self) {
        metadata::laws::models_are_read();
        metadata::laws::models_of_roots_are_valid();
        metadata::laws::keys_are_in_order();
        // The root has a model.
        let _root = self.root();
    }

    fn version(&self) -> &str {
        View::version(self)
    }

    fn user(&self) -> &[u8] {
        View::user(self)
    }

    fn count(&self, table: TableId) -> u32 {
        View::count(self, table)
    }

    fn start(&self, list: MemberList, row: u32) -> u32 {
        start_at(self.source(), self.known(), list, row)
    }

    fn is_text(&self, table: TableId, row: u32, cell: usize, sought: &str) -> bool {
        is_text_at(self.source(), table, row, cell, sought)
    }

    fn key(&self, table: TableId, row: u32, cell: usize) -> u32 {
        self.source()
            .number(table, row, column_of_cell(table, cell))
    }

    fn in_order(&self, table: TableId) -> bool {
        View::in_order(self, table)
    }
}

impl ReadCells for View<'_> {
    ghost heap_index = { λ root id. Some (number_of (source_of root) id.table id.row (column_of id.table id.cell_index)) };

    ghost follow = { λ root cursors. AreCursors (source_of root) cursors };

    fn shared_blobs_are_one(&self) {
        metadata::laws::models_are_read();
        metadata::laws::cells_are_one();
    }

    fn index_in_heap(&self, table: TableId, row: u32, cell: usize) -> Option<u32> {
        Some(
            self.source()
                .number(table, row, column_of_cell(table, cell)),
        )
    }

    fn column_numbers(&self, table: TableId, cell: usize) -> Option<ColumnNumbers<'_>> {
        metadata::laws::models_are_read();
        metadata::laws::coded_indexes_are_row_numbers();
        table_schema::laws::tags_fit();
        Some(self.source().column(table, column_of_cell(table, cell)))
    }

    fn strings_heap(&self) -> Option<&[u8]> {
        metadata::laws::models_are_read();
        Some(self.source().texts())
    }

    fn blob_heap(&self) -> Option<&[u8]> {
        metadata::laws::models_are_read();
        Some(self.source().blobs())
    }

    fn run_cursors(&self) -> RunCursors {
        RunCursors::new()
    }

    fn cell_onward(
        &self,
        cursors: &mut RunCursors,
        table: TableId,
        row: u32,
        cell: usize,
    ) -> CellRef<'_> {
        cell_in_pass(self, cursors, table, row, cell)
    }

    fn cell(&self, table: TableId, row: u32, cell: usize) -> CellRef<'_> {
        View::cell(self, table, row, cell)
    }

    fn signature(
        &self,
        _alloc: Global,
        _kind: SigKind,
        table: TableId,
        row: u32,
        cell: usize,
    ) -> Result<SignatureBytes<'_>, AllocError> {
        metadata::laws::models_are_read();
        metadata::laws::models_of_roots_are_valid();
        // The root has a model.
        let _root = self.root();
        match View::cell(self, table, row, cell) {
            CellRef::Sig(blob) => Ok(SignatureBytes::Stored(blob)),
            _ => unreachable!(),
        }
    }
}
