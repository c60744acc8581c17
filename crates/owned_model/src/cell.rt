ghost use Rattle.std.specs.Prelude.{◌≡◌, ◌≤◌, ◌<◌, IfOk};
ghost use Rattle.table_schema.specs.CellColumns.{cell_count};
ghost use Rattle.metadata.specs.Cell.{Cell as Says};
ghost use Rattle.metadata.specs.Metadata.{Metadata, cell_in};
ghost use Rattle.metadata.specs.Model.{IsModel};
ghost use Rattle.reading.specs.Shown.{Shows, ShowsSignature};
ghost use Rattle.tables.specs.Said.{said};
ghost use Rattle.opening.specs.Views.{HasModel, row_count};

use opening::{CellRef, TableId, View};
use signatures::{SigError, decode};
use std::alloc::{AllocError, Global};
use table_schema::{column_of_cell, columns};
use tables::{Bytes, Cell, ColumnKind, Text};

/// Decodes the signature that a blob encodes in a column of signatures.
fn own_signature(alloc: Global, blob: &[u8], kind: ColumnKind) -> Result<Cell, AllocError>
    requires { ∥ ((cell : Says) × ShowsSignature kind blob.now cell) ∥₁ }
    ensures { (cell : Says) → ShowsSignature kind blob.now cell → IfOk result (λ owned. said owned ≡ cell) }
{
    match kind {
        ColumnKind::Signature(column) => match decode(alloc, blob, column) {
            Ok(signature) => Ok(Cell::Sig(signature)),
            Err(SigError::Memory) => Err(AllocError),
            Err(SigError::Bad) => unreachable!(),
        },
        _ => unreachable!(),
    }
}

/// Makes the cell that a value in place stands for, with a copy of its string or bytes.
fn own_cell(alloc: Global, seen: CellRef, kind: ColumnKind) -> Result<Cell, AllocError>
    requires { ∥ ((cell : Says) × Shows kind seen cell) ∥₁ }
    ensures { (cell : Says) → Shows kind seen.entry cell → IfOk result (λ owned. said owned ≡ cell) }
{
    match seen {
        CellRef::Number(number) => Ok(Cell::Number(number)),
        CellRef::Text(text) => Ok(Cell::Text(Text::from(String::from_str(alloc, text)?))),
        CellRef::Bytes(blob) => Ok(Cell::Bytes(Bytes::from(blob.to_vec(alloc)?))),
        CellRef::Guid(guid) => Ok(Cell::Guid(guid)),
        CellRef::Ref(reference) => Ok(Cell::Ref(reference)),
        CellRef::Start(row) => Ok(Cell::Start(row)),
        CellRef::Sig(blob) => own_signature(alloc, blob, kind),
    }
}

/// Loads a cell of a row, by the index of the cell in the row.
pub fn load_cell(
    alloc: Global,
    view: &View,
    table: TableId,
    row: u32,
    column: usize,
) -> Result<Cell, AllocError>
    requires first { 1 ≤ row }
    requires last { row ≤ row_count view.now table }
    requires column { column < cell_count table }
    ensures { (model : Metadata) → IsModel view.now model → IfOk result (λ cell. said cell ≡ cell_in model table row column) }
{
    // The metadata root has a model.
    let _root = view.root();
    let kind = columns(table)[column_of_cell(table, column)].kind;
    own_cell(alloc, view.cell(table, row, column), kind)
}
