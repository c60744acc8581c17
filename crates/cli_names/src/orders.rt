//! The order of the rows of a table, and the members of an owner.
ghost use Rattle.std.specs.Prelude.{◌≡◌, ◌≤◌, ◌+◌};
ghost use Rattle.metadata.specs.Metadata.{Metadata};
ghost use Rattle.metadata.specs.Model.{IsModel};
ghost use Rattle.metadata.specs.MemberLists.{member_of, owner_of};
ghost use Rattle.opening.specs.Views.{row_count};
ghost use Rattle.cli_names.specs.Orders.{order_in, run_start};

use opening::{CellCursor, MemberList, TableId};
use std::ops::Range;

/// The rows of a table, in an order.
#[derive(Drop)]
pub struct TableOrder {
    /// The rows. If there are none, the order is that of the rows.
    pub rows: Vec<u32>,
}

/// The rows of a table in the order that is known; none if none is.
pub(crate) fn rows_of(orders: &[TableOrder], table: TableId) -> &[u32]
    ensures { result.now ≡ order_in orders.now table }
{
    match orders.get(table.table_index()) {
        Some(order) => &order.rows,
        None => &[],
    }
}

/// The members of an owner.
pub fn run_of(cells: &mut CellCursor<'_, '_>, list: MemberList, row: u32) -> Range<u32>
    requires first { 1 ≤ row }
    requires last { row ≤ row_count cells.old (owner_of list) }
    ensures same { cells.new ≡ cells.old }
    ensures first { 1 ≤ result.start }
    ensures last { result.«end» ≤ row_count cells.old (member_of list) + 1 }
    ensures begin { (model : Metadata) → IsModel cells.old model → result.start ≡ run_start model list row }
    ensures past { (model : Metadata) → IsModel cells.old model → result.«end» ≡ run_start model list (row + 1) }
{
    metadata::laws::models_are_read();
    metadata::laws::models_of_roots_are_valid();
    // The root of a view has a model.
    let _view = cells.view();
    cells.run(list, row)
}
