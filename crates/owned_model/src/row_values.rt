ghost use Rattle.std.specs.Prelude.{◌≤◌, ◌<◌, ℕ, slice_get};
ghost use Rattle.table_schema.specs.CellColumns.{cell_count};
ghost use Rattle.metadata.specs.Metadata.{Metadata, row_of, cell_in};
ghost use Rattle.metadata.specs.Model.{IsModel};
ghost use Rattle.opening.specs.Views.{row_count};
ghost use Rattle.type_records.specs.Kinds.{kinds_of};
ghost use Rattle.type_records.specs.Shapes.{AreHeld, AreSaid};
ghost use Rattle.owned_model.specs.RefRows.{IsShown, HoldsAt, SaysAt};

use crate::ref_row::RefRow;
use opening::{CellRef, TableId, View};
use table_schema::cell_count;

/// The values of a row's cells, by their indexes.
#[tactic(auto, using(crate::proofs::RefRowLemmas::cells_few))]
fn values_of<'a>(view: &View<'a>, table: TableId, row: u32) -> [CellRef<'a>; 9]
    requires first { 1 ≤ row }
    requires last { row ≤ row_count view.now table }
    ensures { (model : Metadata) → IsModel view.now model → (cell_index : ℕ) → cell_index < cell_count table
        → IsShown (slice_get result cell_index) table cell_index (cell_in model table row cell_index) }
{
    let mut values = [CellRef::Number(0); 9];
    for cell_index in 0..cell_count(table) {
        values[cell_index] = view.cell(table, row, cell_index);
    }
    values
}

/// The cells of a row of any table, read in place.
pub fn cells_of<'a>(view: &View<'a>, table: TableId, row: u32) -> RefRow<'a>
    requires first { 1 ≤ row }
    requires last { row ≤ row_count view.now table }
    // They are of the shapes of the table's columns.
    ensures held { AreHeld (HoldsAt result) 0 (kinds_of table) }
    // They denote the cells of the row in every model.
    ensures model { (model : Metadata) → IsModel view.now model → AreSaid (SaysAt result) 0 (kinds_of table) (row_of model table row) }
{
    metadata::laws::models_are_read();
    metadata::laws::models_of_roots_are_valid();
    sig_grammar::laws::signatures_are_read();
    // The root has a model.
    let _root = view.root();
    RefRow {
        table,
        values: values_of(view, table, row),
    }
}
