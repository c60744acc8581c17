ghost use Rattle.std.specs.Prelude.{◌≡◌, ◌↔◌, List, IsSome, IfSome, IfOk};
ghost use Rattle.table_schema.specs.declared.table.TableId.{TableId as Table};
ghost use Rattle.metadata.specs.Cell.{Cell as TheCell};
ghost use Rattle.tables.specs.Said.{all_said};
ghost use Rattle.type_records.specs.Kinds.{kinds_of, AreOfKinds};
ghost use Rattle.type_records.specs.Shapes.{AreHeld, AreSaid};

use crate::cell_row::CellRow;
use crate::kinds::is_row_of;
use crate::row::Row;
use std::alloc::{AllocError, Global};
use table_schema::TableId;
use tables::Cell;

/// A record that can be read from any kind of row.
pub trait FromRow<'m, W: Row<'m>>: Sized {
    // the table of the row
    ghost TABLE: { Table };

    // the content of the record: its fields in the order of the columns
    ghost fields: { Self → List TheCell };

    /// The table of the row.
    const TABLE: TableId;

    /// The record of a row.
    fn from_row(row: &W) -> Self
        requires { AreHeld (W.holds row.now) 0 (kinds_of TABLE) }
        ensures { AreSaid (W.says row.now) 0 (kinds_of TABLE) (fields result) };

    /// The table of the row.
    final fn table_id() -> TableId
        ensures { result ≡ TABLE }
    {
        Self::TABLE
    }
}

/// A row of a table as a record, whose fields have the names of the columns (II.22).
pub trait Record<'m>: FromRow<'m, CellRow<'m>> {
    /// The record of these cells; `None` if they do not have the number and kinds of its table's rows.
    ///
    /// It borrows from the cells and does not allocate.
    final fn from_cells(cells: &'m [Cell]) -> Option<Self>
        ensures kinds { IsSome result ↔ AreOfKinds (kinds_of Self.TABLE) (all_said cells.now) }
        ensures fields { IfSome result (λ it. Self.fields it ≡ all_said cells.now) }
    {
        record_of(cells)
    }

    /// The cells of the record. The only error is out of memory.
    fn cells(&self, alloc: Global) -> Result<Vec<Cell>, AllocError>
        ensures { IfOk result (λ cells. all_said cells.items ≡ Self.fields self.now) };
}

/// The record of these cells; `None` if they do not have the number and kinds of its table's rows.
#[tactic(auto, using(crate::proofs::RowLemmas::cells_are_held))]
pub fn record_of<'m, R: FromRow<'m, CellRow<'m>>>(cells: &'m [Cell]) -> Option<R>
    ensures kinds { IsSome result ↔ AreOfKinds (kinds_of R.TABLE) (all_said cells.now) }
    ensures fields { IfSome result (λ it. R.fields it ≡ all_said cells.now) }
{
    if !is_row_of(R::TABLE, cells) {
        return None;
    }
    Some(R::from_row(&CellRow { cells }))
}
