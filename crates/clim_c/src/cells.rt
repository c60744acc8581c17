ghost use Rattle.std.specs.Prelude.{◌≡◌, ◌≤◌, ◌<◌, ◌+◌, ◌-◌, ℕ, min, true, false, length, slice_index_or};
ghost use Rattle.c_values.specs.declared.cell.ClimCell.{ClimCell as Reported};
ghost use Rattle.clim_c.specs.Reported.{AreReported, AreThere, IsKind, Reports, ReportsCell};
ghost use Rattle.clim_c.specs.Words.{IsModel, Metadata, OnFalse, OnTrue, SameFrom, Table, cell_count, row_count, table_number};

use crate::opened::seen;
use crate::view::ClimView;
use c_values::ClimCell;
use opening::{CellRef, ColumnKind, TableId, View};
use table_schema::ColumnKind::{
    Blob, Coded, Guid, List, Padding, Row, Signature, Text, U8, U16, U32,
};
use table_schema::{cell_count, column_of_cell, columns};

/// A value as a C caller receives it.
#[inline(always)]
fn reported<'a>(cell: CellRef<'a>) -> ClimCell<'a>
    ensures { Reports result cell.entry }
{
    match cell {
        CellRef::Number(number) => ClimCell::new(1, &[], number, 0, [0; 16]),
        CellRef::Text(text) => ClimCell::new(2, text.as_bytes(), 0, 0, [0; 16]),
        CellRef::Bytes(bytes) => ClimCell::new(3, bytes, 0, 0, [0; 16]),
        CellRef::Guid(None) => ClimCell::new(4, &[], 0, 0, [0; 16]),
        CellRef::Guid(Some(guid)) => ClimCell::new(5, &[], 0, 0, guid),
        CellRef::Ref(None) => ClimCell::new(6, &[], 0, 0, [0; 16]),
        CellRef::Ref(Some(token)) => {
            ClimCell::new(7, &[], token.row, token.table.number(), [0; 16])
        }
        CellRef::Start(number) => ClimCell::new(8, &[], number, 0, [0; 16]),
        CellRef::Sig(bytes) => ClimCell::new(9, bytes, 0, 0, [0; 16]),
    }
}

/// A cell of a row, by its index in the row; rows count from 1, cells from 0. `true` if the view is open and has the
/// cell. Otherwise `cell` is unchanged.
#[unsafe(no_mangle)]
pub extern "C" fn clim_cell_at<'a>(
    view: &ClimView<'a>,
    table: u8,
    row: u32,
    column: usize,
    cell: &mut ClimCell<'a>,
) -> bool
    ensures shown { OnTrue result ((model : Metadata) → IsModel view.now.root.now model
        → (known : Table) → table_number known ≡ table → ReportsCell view.now.root.now model known row column cell.new) }
    ensures there { OnTrue result ((view.now.is_open ≡ true) × (1 ≤ row)
        × ((known : Table) × (table_number known ≡ table) × (row ≤ row_count view.now.root.now known) × (column < cell_count known))) }
    ensures complete { view.now.is_open ≡ true → (known : Table) → table_number known ≡ table
        → 1 ≤ row → row ≤ row_count view.now.root.now known → column < cell_count known → result ≡ true }
    ensures same { OnFalse result (cell.new ≡ cell.old) }
{
    let (Some(table), Some(seen)) = (TableId::from_number(table), seen(view)) else {
        return false;
    };
    if row < 1 || row > seen.count(table) || column >= cell_count(table) {
        return false;
    }
    *cell = reported(seen.cell(table, row, column));
    true
}

/// Writes the cells of a column, whose kind the caller knows, from a row on.
#[inline(always)]
fn write_cells<'a>(
    seen: &View<'a>,
    kind: ColumnKind,
    table: TableId,
    first: u32,
    column: usize,
    cells: &mut [ClimCell<'a>],
    count: usize,
)
    requires kind { IsKind table column kind }
    requires there { AreThere seen.now table first column count cells.old }
    ensures { AreReported seen.now table first column count cells.old cells.new }
{
    for k in 0..count {
        cells[k] = reported(seen.cell_of_kind(kind, table, first + k as u32, column));
    }
}

/// Writes the cells of a column from a row on. The kind is matched before the loop, so each has a loop that knows it.
fn write_column<'a>(
    seen: &View<'a>,
    table: TableId,
    first: u32,
    column: usize,
    cells: &mut [ClimCell<'a>],
    count: usize,
)
    requires { AreThere seen.now table first column count cells.old }
    ensures { AreReported seen.now table first column count cells.old cells.new }
{
    match columns(table)[column_of_cell(table, column)].kind {
        U8 => write_cells(seen, U8, table, first, column, cells, count),
        U16 => write_cells(seen, U16, table, first, column, cells, count),
        U32 => write_cells(seen, U32, table, first, column, cells, count),
        Padding => write_cells(seen, Padding, table, first, column, cells, count),
        Text => write_cells(seen, Text, table, first, column, cells, count),
        Guid => write_cells(seen, Guid, table, first, column, cells, count),
        Blob => write_cells(seen, Blob, table, first, column, cells, count),
        Signature(of) => write_cells(seen, Signature(of), table, first, column, cells, count),
        Row(to) => write_cells(seen, Row(to), table, first, column, cells, count),
        Coded(to) => write_cells(seen, Coded(to), table, first, column, cells, count),
        List(of) => write_cells(seen, List(of), table, first, column, cells, count),
    }
}

/// Writes the cells of a column from a row on, up to the length of `cells`, and returns the number written. The other
/// elements are unchanged.
#[unsafe(no_mangle)]
pub extern "C" fn clim_cells<'a>(
    view: &ClimView<'a>,
    table: u8,
    first: u32,
    column: usize,
    cells: &mut [ClimCell<'a>],
) -> usize
    ensures shown { (model : Metadata) → IsModel view.now.root.now model → (known : Table) → table_number known ≡ table
        → (k : ℕ) (d : Reported) → k < result → ReportsCell view.now.root.now model known (first + k) column (slice_index_or cells.new k d) }
    ensures count { view.now.is_open ≡ true → (known : Table) → table_number known ≡ table → 1 ≤ first → column < cell_count known
        → result ≡ min (length cells.old) (row_count view.now.root.now known + 1 - first) }
    ensures there { 0 < result → (view.now.is_open ≡ true) × (1 ≤ first)
        × ((known : Table) × (table_number known ≡ table) × (column < cell_count known)) }
    ensures same { SameFrom cells.old cells.new result }
{
    let (Some(table), Some(seen)) = (TableId::from_number(table), seen(view)) else {
        return 0;
    };
    if first < 1 || column >= cell_count(table) {
        return 0;
    }
    let left = (seen.count(table) + 1).saturating_sub(first) as usize;
    let count = left.min(cells.len());
    write_column(&seen, table, first, column, cells, count);
    count
}
