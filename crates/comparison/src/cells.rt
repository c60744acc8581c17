//! The cells of two views that differ.
ghost use Rattle.std.specs.Prelude.{◌≡◌, ◌<◌, IfOk, IsTrue, OnOk, All, take};
ghost use Rattle.table_schema.specs.CellColumns.{cell_count};
ghost use Rattle.metadata.specs.Metadata.{Metadata};
ghost use Rattle.metadata.specs.Model.{IsModel};
ghost use Rattle.metadata.specs.SourceAt.{source_of};
ghost use Rattle.comparison.specs.Alike.{AreAlike, AreSameParts};
ghost use Rattle.comparison.specs.ComparedCells.{AreOutcomes, IsInBoth};
ghost use Rattle.comparison.specs.Progress.{Extends, IsProgress};
ghost use Rattle.comparison.specs.Differences.{IsThere, cell_difference, cell_differences, cell_differences_but, row_differences, table_differences};

use crate::compared_cells::{CellId, ComparedCells};
use crate::difference::Difference;
use crate::ignored::IgnoredColumns;
use crate::same_bytes::{SameParts, have_same_root, is_same_row, is_same_table};
use crate::same_in_row::{ViewCells, is_same_in_row};
use opening::{TableId, View};
use std::alloc::{AllocError, Global};
use table_schema::cell_count;

/// The first cells that differ, at most `limit`, in the order of tables, rows and columns. Only rows that both views
/// have are compared.
///
/// If the roots have the same bytes, no cell is read. Otherwise each cell is read at most once, until `limit` are found,
/// and none of a table or a row whose bytes show that it is the same. A signature is decoded only if its blobs have other
/// bytes. Values that rows of a table name again are compared once, unless they are short, and texts up to one NUL together.
/// Blobs of all tables are compared in longer steps, once many that overlap were compared.
///
/// # Errors
///
/// Only if out of memory. If blobs overlap it takes seventeen bytes for each byte of both blob heaps.
pub fn differing_cells(
    alloc: Global,
    left: &View<'_>,
    right: &View<'_>,
    limit: usize,
) -> Result<Vec<Difference>, AllocError>
    ensures sound { (first second : Metadata) → IsModel left.now first → IsModel right.now second
        → IfOk result (λ found. found.items ≡ take limit (cell_differences first second)) }
    ensures there { IfOk result (λ found. All (IsThere left.now right.now) found.items) }
{
    differing_cells_but(alloc, left, right, &IgnoredColumns::none(), limit)
}

/// The first cells that differ, at most `limit`, as [`differing_cells`] finds them, but for the cells of ignored columns:
/// these are not compared.
///
/// # Errors
///
/// Only if out of memory.
pub fn differing_cells_but(
    alloc: Global,
    left: &View<'_>,
    right: &View<'_>,
    ignored: &IgnoredColumns,
    limit: usize,
) -> Result<Vec<Difference>, AllocError>
    ensures sound { (first second : Metadata) → IsModel left.now first → IsModel right.now second
        → IfOk result (λ found. found.items ≡ take limit (cell_differences_but ignored.now first second)) }
    ensures there { IfOk result (λ found. All (IsThere left.now right.now) found.items) }
{
    if have_same_root(left, right) {
        return Ok(Vec::new(alloc));
    }
    let comparison = Comparison {
        left,
        right,
        ignored,
        limit,
    };
    let same = SameParts::of(left.source(), right.source());
    let mut progress = Progress {
        cells: ViewCells::new(left, right),
        compared: ComparedCells::new(alloc),
        found: Vec::new(alloc),
    };
    for table in TableId::all() {
        find_in_table(alloc, &comparison, *table, &same, &mut progress)?;
    }
    Ok(progress.found)
}

/// Two views, the columns that are not compared, and the largest number of cells to find.
#[derive(Clone, Copy)]
struct Comparison<'c, 'a> {
    left: &'c View<'a>,
    right: &'c View<'a>,
    ignored: &'c IgnoredColumns,
    limit: usize,
}

/// How far a comparison has come.
#[derive(Drop)]
struct Progress<'c, 'a> {
    cells: ViewCells<'c, 'a>,
    compared: ComparedCells,
    found: Vec<Difference>,
}

/// Adds the cells of a table that differ, up to the limit. No cell is read if the bytes of the rows decide that none differs.
fn find_in_table(
    alloc: Global,
    comparison: &Comparison<'_, '_>,
    table: TableId,
    same: &SameParts,
    progress: &mut Progress<'_, '_>,
) -> Result<(), AllocError>
    requires same { AreSameParts (source_of comparison.now.left.now) (source_of comparison.now.right.now) same.now }
    requires progress { IsProgress comparison.now progress.old }
    ensures { OnOk result (Extends comparison.now progress.old.found.items progress.new
        (λ first second. table_differences comparison.now.ignored.now first second table)) }
{
    let (left, right) = (comparison.left, comparison.right);
    let alike = same.decide(table);
    if is_same_table(left, right, table, alike) {
        return Ok(());
    }
    progress.compared.begin_table(alloc);
    for earlier in 0..left.count(table).min(right.count(table)) {
        find_in_row(alloc, comparison, table, earlier + 1, alike, progress)?;
    }
    Ok(())
}

/// Adds the cells of a row that differ, up to the limit. `alike` says that equal numbers in the rows of the table stand for
/// equal cells.
fn find_in_row(
    alloc: Global,
    comparison: &Comparison<'_, '_>,
    table: TableId,
    row: u32,
    alike: bool,
    progress: &mut Progress<'_, '_>,
) -> Result<(), AllocError>
    requires alike { IsTrue alike → AreAlike (source_of comparison.now.left.now) (source_of comparison.now.right.now) table }
    requires row { IsInBoth comparison.now.left.now comparison.now.right.now table row }
    requires progress { IsProgress comparison.now progress.old }
    requires outcomes { AreOutcomes comparison.now.left.now comparison.now.right.now table progress.old.compared }
    ensures found { OnOk result (Extends comparison.now progress.old.found.items progress.new
        (λ first second. row_differences comparison.now.ignored.now first second table row)) }
    ensures outcomes { OnOk result (AreOutcomes comparison.now.left.now comparison.now.right.now table progress.new.compared) }
{
    if progress.found.len() == comparison.limit {
        return Ok(());
    }
    if is_same_row(comparison.left, comparison.right, table, row, alike) {
        return Ok(());
    }
    for index in 0..cell_count(table) {
        find_in_cell(alloc, comparison, CellId { table, row, index }, progress)?;
    }
    Ok(())
}

/// Adds a cell if it differs and its column is not ignored, up to the limit.
fn find_in_cell(
    alloc: Global,
    comparison: &Comparison<'_, '_>,
    cell: CellId,
    progress: &mut Progress<'_, '_>,
) -> Result<(), AllocError>
    requires row { IsInBoth comparison.now.left.now comparison.now.right.now cell.table cell.row }
    requires index { cell.index < cell_count cell.table }
    requires progress { IsProgress comparison.now progress.old }
    requires outcomes { AreOutcomes comparison.now.left.now comparison.now.right.now cell.table progress.old.compared }
    ensures found { OnOk result (Extends comparison.now progress.old.found.items progress.new
        (λ first second. cell_difference comparison.now.ignored.now first second cell.table cell.row cell.index)) }
    ensures outcomes { OnOk result (AreOutcomes comparison.now.left.now comparison.now.right.now cell.table progress.new.compared) }
{
    if comparison.ignored.contains(cell.table, cell.index) {
        return Ok(());
    }
    let (left, right) = (comparison.left, comparison.right);
    let (cells, compared) = (&mut progress.cells, &mut progress.compared);
    let same = is_same_in_row(alloc, left, right, cell, cells, compared)?;
    if same {
        return Ok(());
    }
    if progress.found.len() == comparison.limit {
        return Ok(());
    }
    Ok(
        progress.found.push(Difference::Cell {
            table: cell.table,
            row: cell.row,
            cell_index: cell.index,
        })?,
    )
}
