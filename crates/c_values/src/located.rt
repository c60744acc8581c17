//! The cell that has a byte of a root.
ghost use Rattle.std.specs.Prelude.{◌≡◌, ◌<◌, ◌≤◌, ℕ, IfNone, IfSome, length};
ghost use Rattle.table_schema.specs.declared.table.TableId.{TableId as Table};
ghost use Rattle.table_schema.specs.CellColumns.{cell_count, column_of};
ghost use Rattle.schema.specs.Offsets.{tables_end};
ghost use Rattle.metadata.specs.SourceAt.{tables_in, tables_offset};
ghost use Rattle.opening.specs.Views.{HasModel};
ghost use Rattle.c_values.specs.Locations.{HasByte, IsLocation, sizes_in};

use root::{Kind, read_root};
use schema::{Layout, cell_at};
use table_schema::{TableId, cell_count, column_of_cell};

/// The cell that has a byte, for C (II.24.2.6).
#[repr(C)]
#[derive(Clone, Copy)]
pub struct ClimLocation {
    /// The offset of the cell, in bytes from the start of the root.
    pub offset: usize,
    /// The size of the cell in bytes: 1, 2 or 4.
    pub size: usize,
    /// The column: the index of the cell in its row, from 0.
    pub column: usize,
    /// The row, counted from 1.
    pub row: u32,
    /// The table, by table number.
    pub table: u8,
}

/// The table stream of a root that has a model, and its offset in the root; no bytes at offset 0 if no header names it.
fn tables_of(root: &[u8]) -> (&[u8], usize)
    requires { HasModel root.now }
    ensures stream { result.0.now ≡ tables_in root.now }
    ensures offset { result.1 ≡ tables_offset root.now }
    ensures stream_within { length result.0.now ≤ 0x40000000 }
    ensures offset_within { result.1 ≤ 0x40000000 }
{
    let Ok(directory) = read_root(root) else {
        unreachable!();
    };
    match (
        directory.stream(Kind::Tables),
        directory.stream_place(Kind::Tables),
    ) {
        (Some(stream), Some(range)) => (stream, range.start),
        _ => (&[], 0),
    }
}

/// The layout of the table stream of a root that has a model.
fn layout_of(root: &[u8], stream: &[u8]) -> Layout
    requires model { HasModel root.now }
    requires stream { stream.now ≡ tables_in root.now }
    ensures sizes { result ≡ sizes_in root.now }
    ensures end { tables_end result ≤ length stream.now }
{
    metadata::laws::models_are_read();
    schema::laws::streams_are_read();
    schema::laws::tables_end_within();
    match Layout::read(stream) {
        Ok(layout) => layout,
        Err(_) => unreachable!(),
    }
}

/// The index of a column among those of a row that have a cell; `None` if it is padding (II.22.9).
fn cell_of_column(table: TableId, column: usize) -> Option<usize>
    ensures sound { IfSome result (λ cell. (cell < cell_count table) × (column_of table cell ≡ column)) }
    ensures none { IfNone result ((cell : ℕ) → cell < cell_count table → column_of table cell ≡ column → ⊥) }
{
    for cell in 0..cell_count(table) {
        if column_of_cell(table, cell) == column {
            return Some(cell);
        }
    }
    None
}

/// The location of the cell that has the byte at an offset of a root that has a model; `None` if no cell has it.
pub fn location_at(root: &[u8], offset: usize) -> Option<ClimLocation>
    requires { HasModel root.now }
    ensures sound { IfSome result (IsLocation root.now offset) }
    ensures none { IfNone result ((table : Table) (row column : ℕ) → HasByte root.now table row column offset → ⊥) }
{
    schema::laws::cells_are_apart();
    let (stream, start) = tables_of(root);
    let layout = layout_of(root, stream);
    if offset < start {
        return None;
    }
    let cell = cell_at(&layout, offset - start)?;
    let column = cell_of_column(cell.table, cell.column)?;
    Some(ClimLocation {
        offset: start + layout.cell_start(cell.table, cell.row, cell.column),
        size: layout.cell_width(cell.table, cell.column),
        column,
        row: cell.row,
        table: cell.table.number(),
    })
}
