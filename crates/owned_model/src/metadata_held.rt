ghost use Rattle.std.specs.Prelude.{◌≡◌, ◌≤◌, None};
ghost use Rattle.tables.specs.Said.{said};
ghost use Rattle.metadata.specs.Metadata.{Metadata, count_in};
ghost use Rattle.metadata.specs.Valid.{row_in};
ghost use Rattle.metadata.specs.KeyOrder.{key_in, key_number};

use crate::valid_model::Model;
use metadata::row_number;
use metadata_source::{MemberList, ReadCells, ReadMetadata, SignatureBytes};
use reading::{CellRef, RunCursors};
use rows::ColumnNumbers;
use signatures::encode;
use std::alloc::{AllocError, Global};
use table_schema::{ColumnKind, SigKind, TableId, column_of_cell, columns};
use tables::Cell;

impl ReadMetadata for Model {
    ghost shows = { λ model other. model ≡ other };

    ghost row_count = { count_in };

    ghost key_number = { key_in };

    fn holds_one(&self) {
        let _tables = self.tables();
    }

    fn version(&self) -> &str {
        Model::version(self)
    }

    fn user(&self) -> &[u8] {
        // The user strings of a valid model are padded.
        let _tables = self.tables();
        Model::user(self)
    }

    fn count(&self, table: TableId) -> u32 {
        Model::count(self, table)
    }

    fn start(&self, list: MemberList, row: u32) -> u32 {
        // The cell is one of a valid model.
        let _tables = self.tables();
        match self.cell(list.owner(), row, list.cell()) {
            Cell::Start(start) => *start,
            _ => unreachable!(),
        }
    }

    fn is_text(&self, table: TableId, row: u32, cell: usize, sought: &str) -> bool {
        match self.cell(table, row, cell) {
            Cell::Text(text) => text.as_str() == sought,
            _ => false,
        }
    }

    fn key(&self, table: TableId, row: u32, cell: usize) -> u32 {
        // The cell is one of a valid model.
        let _tables = self.tables();
        let kind = columns(table)[column_of_cell(table, cell)].kind;
        let key = self.cell(table, row, cell);
        key_number(kind, key)
    }

    fn in_order(&self, table: TableId) -> bool {
        Model::in_order(self, table)
    }
}

impl ReadCells for Model {
    ghost heap_index = { λ model id. None };

    // The starts of its cells are never null, so it asks nothing of cursors.
    ghost follow = { λ model cursors. Unit {0} };

    fn shared_blobs_are_one(&self) {}

    fn index_in_heap(&self, _table: TableId, _row: u32, _cell: usize) -> Option<u32> {
        None
    }

    fn column_numbers(&self, _table: TableId, _cell: usize) -> Option<ColumnNumbers<'_>> {
        None
    }

    fn strings_heap(&self) -> Option<&[u8]> {
        None
    }

    fn blob_heap(&self) -> Option<&[u8]> {
        None
    }

    fn run_cursors(&self) -> RunCursors {
        RunCursors::new()
    }

    fn cell_onward(
        &self,
        _cursors: &mut RunCursors,
        table: TableId,
        row: u32,
        cell: usize,
    ) -> CellRef<'_> {
        ReadCells::cell(self, table, row, cell)
    }

    fn cell(&self, table: TableId, row: u32, cell: usize) -> CellRef<'_> {
        // The cell is one of a valid model.
        let _tables = self.tables();
        match Model::cell(self, table, row, cell) {
            Cell::Number(number) => CellRef::Number(*number),
            Cell::Text(text) => CellRef::Text(text.as_str()),
            Cell::Bytes(blob) => CellRef::Bytes(blob.as_slice()),
            Cell::Guid(guid) => CellRef::Guid(*guid),
            Cell::Ref(reference) => CellRef::Ref(*reference),
            Cell::Start(row) => CellRef::Start(*row),
            Cell::Sig(_) => unreachable!(),
        }
    }

    fn signature(
        &self,
        alloc: Global,
        _kind: SigKind,
        table: TableId,
        row: u32,
        cell: usize,
    ) -> Result<SignatureBytes<'_>, AllocError> {
        // The cell is one of a valid model.
        let _tables = self.tables();
        match Model::cell(self, table, row, cell) {
            Cell::Sig(signature) => Ok(SignatureBytes::Canonical(encode(alloc, signature)?)),
            _ => unreachable!(),
        }
    }
}

/// The key number of a cell in a column of a kind (II.24.2.6). Null is 0.
fn key_number(kind: ColumnKind, cell: &Cell) -> u32
    requires { row_in (said cell.now) ≤ 0xFFFFFF }
    ensures { result ≡ key_number kind (said cell.now) }
{
    match cell {
        Cell::Ref(Some(token)) => row_number(kind, *token) as u32,
        _ => 0,
    }
}
