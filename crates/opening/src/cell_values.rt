//! The value of a cell of a view, by its kind. A cell of another kind has an empty value: 0, null, or no bytes.
ghost use Rattle.std.specs.Prelude.{◌≡◌, ◌≤◌, ◌<◌};
ghost use Rattle.table_schema.specs.CellColumns.{cell_count};
ghost use Rattle.metadata.specs.Cell.{bytes_in, guid_in, number_in, reference_in, text_in};
ghost use Rattle.metadata.specs.Metadata.{Metadata, cell_in};
ghost use Rattle.metadata.specs.Model.{IsModel};
ghost use Rattle.opening.specs.Views.{row_count};

use crate::view::View;
use reading::CellRef;
use table_schema::{TableId, Token};

/// The number in a cell, otherwise 0.
pub fn number_or_zero(view: &View<'_>, table: TableId, row: u32, cell: usize) -> u32
    requires first { 1 ≤ row }
    requires last { row ≤ row_count view.now table }
    requires cell { cell < cell_count table }
    ensures { (model : Metadata) → IsModel view.now model → result ≡ number_in (cell_in model table row cell) }
{
    match view.cell(table, row, cell) {
        CellRef::Number(number) => number,
        _ => 0,
    }
}

/// The text in a cell, otherwise an empty one.
pub fn text_or_empty<'a>(view: &View<'a>, table: TableId, row: u32, cell: usize) -> &'a str
    requires first { 1 ≤ row }
    requires last { row ≤ row_count view.now table }
    requires cell { cell < cell_count table }
    ensures { (model : Metadata) → IsModel view.now model → result.now ≡ text_in (cell_in model table row cell) }
{
    match view.cell(table, row, cell) {
        CellRef::Text(text) => text,
        _ => "",
    }
}

/// The bytes in a cell, otherwise none.
pub fn bytes_or_empty<'a>(view: &View<'a>, table: TableId, row: u32, cell: usize) -> &'a [u8]
    requires first { 1 ≤ row }
    requires last { row ≤ row_count view.now table }
    requires cell { cell < cell_count table }
    ensures { (model : Metadata) → IsModel view.now model → result.now ≡ bytes_in (cell_in model table row cell) }
{
    match view.cell(table, row, cell) {
        CellRef::Bytes(bytes) => bytes,
        _ => &[],
    }
}

/// The reference in a cell, otherwise null.
pub fn reference_or_null(view: &View<'_>, table: TableId, row: u32, cell: usize) -> Option<Token>
    requires first { 1 ≤ row }
    requires last { row ≤ row_count view.now table }
    requires cell { cell < cell_count table }
    ensures { (model : Metadata) → IsModel view.now model → result ≡ reference_in (cell_in model table row cell) }
{
    match view.cell(table, row, cell) {
        CellRef::Ref(token) => token,
        _ => None,
    }
}

/// The GUID in a cell, otherwise null.
pub fn guid_or_null(view: &View<'_>, table: TableId, row: u32, cell: usize) -> Option<[u8; 16]>
    requires first { 1 ≤ row }
    requires last { row ≤ row_count view.now table }
    requires cell { cell < cell_count table }
    ensures { (model : Metadata) → IsModel view.now model → result ≡ guid_in (cell_in model table row cell) }
{
    match view.cell(table, row, cell) {
        CellRef::Guid(guid) => guid,
        _ => None,
    }
}
