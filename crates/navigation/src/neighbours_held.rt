ghost use Rattle.std.specs.Prelude.{Some};
ghost use Rattle.table_schema.specs.CellColumns.{column_of};
ghost use Rattle.metadata.specs.Model.{IsModel};
ghost use Rattle.metadata.specs.Source.{number_of};
ghost use Rattle.metadata.specs.SourceAt.{source_of};
ghost use Rattle.opening.specs.Views.{row_count};
ghost use Rattle.reading.specs.Cursors.{AreCursors};

use crate::neighbours::Neighbours;
use crate::starts::NESTED;
use metadata_source::{MemberList, ReadCells, ReadMetadata, SignatureBytes};
use opening::View;
use reading::{CellRef, RunCursors};
use rows::ColumnNumbers;
use std::alloc::{AllocError, Global};
use table_schema::{SigKind, TableId};

impl Neighbours<'_, '_> {
    ghost use Rattle.std.specs.Prelude.{◌≡◌, ◌≤◌};
    ghost use Rattle.table_schema.specs.declared.table.TableId.TheVariants.{NestedClass};
    ghost use Rattle.table_schema.specs.CellColumns.{column_of};
    ghost use Rattle.metadata.specs.Source.{number_of};
    ghost use Rattle.metadata.specs.SourceAt.{source_of};
    ghost use Rattle.opening.specs.Views.{row_count};

    /// The key number of a row of NestedClass.
    #[tactic(auto, unfolding(table_schema::specs::CellColumns::cell_columns))]
    fn nested_key(&self, row: u32) -> u32
        requires first { 1 ≤ row }
        requires last { row ≤ row_count self.now.view.now NestedClass }
        ensures { result ≡ number_of (source_of self.now.view.now) NestedClass row (column_of NestedClass 0) }
    {
        match self.nested().get(row as usize - 1) {
            Some(key) => *key,
            None => self.view.key(TableId::NestedClass, row, NESTED),
        }
    }
}

impl ReadMetadata for Neighbours<'_, '_> {
    ghost shows = { λ neighbours. IsModel neighbours.view.now };

    ghost row_count = { λ neighbours. row_count neighbours.view.now };

    ghost key_number = { λ neighbours table cell row. number_of (source_of neighbours.view.now) table row (column_of table cell) };

    fn holds_one(&self) {
        self.view.holds_one()
    }

    fn version(&self) -> &str {
        View::version(self.view)
    }

    fn user(&self) -> &[u8] {
        View::user(self.view)
    }

    fn count(&self, table: TableId) -> u32 {
        View::count(self.view, table)
    }

    fn start(&self, list: MemberList, row: u32) -> u32 {
        metadata::laws::models_are_read();
        metadata::laws::models_of_roots_are_valid();
        match self.known(list).get(row as usize - 1) {
            Some(start) => *start,
            None => self.view.start(list, row),
        }
    }

    fn is_text(&self, table: TableId, row: u32, cell: usize, sought: &str) -> bool {
        self.view.is_text(table, row, cell, sought)
    }

    fn key(&self, table: TableId, row: u32, cell: usize) -> u32 {
        if let (TableId::NestedClass, NESTED) = (table, cell) {
            return self.nested_key(row);
        }
        self.view.key(table, row, cell)
    }

    fn in_order(&self, table: TableId) -> bool {
        View::in_order(self.view, table)
    }
}

impl ReadCells for Neighbours<'_, '_> {
    ghost heap_index = { λ neighbours id. Some (number_of (source_of neighbours.view.now) id.table id.row (column_of id.table id.cell_index)) };

    ghost follow = { λ neighbours cursors. AreCursors (source_of neighbours.view.now) cursors };

    fn shared_blobs_are_one(&self) {
        self.view.shared_blobs_are_one()
    }

    fn index_in_heap(&self, table: TableId, row: u32, cell: usize) -> Option<u32> {
        self.view.index_in_heap(table, row, cell)
    }

    fn column_numbers(&self, table: TableId, cell: usize) -> Option<ColumnNumbers<'_>> {
        self.view.column_numbers(table, cell)
    }

    fn strings_heap(&self) -> Option<&[u8]> {
        self.view.strings_heap()
    }

    fn blob_heap(&self) -> Option<&[u8]> {
        self.view.blob_heap()
    }

    fn run_cursors(&self) -> RunCursors {
        self.view.run_cursors()
    }

    fn cell_onward(
        &self,
        cursors: &mut RunCursors,
        table: TableId,
        row: u32,
        cell: usize,
    ) -> CellRef<'_> {
        self.view.cell_onward(cursors, table, row, cell)
    }

    fn cell(&self, table: TableId, row: u32, cell: usize) -> CellRef<'_> {
        View::cell(self.view, table, row, cell)
    }

    fn signature(
        &self,
        alloc: Global,
        kind: SigKind,
        table: TableId,
        row: u32,
        cell: usize,
    ) -> Result<SignatureBytes<'_>, AllocError> {
        self.view.signature(alloc, kind, table, row, cell)
    }
}
