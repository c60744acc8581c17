ghost use Rattle.std.specs.Prelude.{◌≡◌, ◌↔◌, List, Some, IsTrue, IsSome, IfSome, Contains};
ghost use Rattle.table_schema.specs.declared.table.TableId.{TableId as Table};
ghost use Rattle.table_schema.specs.declared.coded.Coded.{Coded as Index};
ghost use Rattle.table_schema.specs.CodedIndexes.{tables_of};
ghost use Rattle.metadata.specs.Cell.{Cell as TheCell};
ghost use Rattle.tables.specs.Said.{all_said};
ghost use Rattle.type_records.specs.Kinds.{kinds_of, AreOfKinds};
ghost use Rattle.type_records.specs.Listed.{IsOneOf};
ghost use Rattle.type_records.specs.Shapes.{AreHeld, AreSaid};

use crate::cell_row::CellRow;
use crate::kinds::is_row_of;
use crate::row::Row;
use table_schema::{Coded, TableId};
use tables::Cell;

/// A row that a coded index names, as a record of one of the tables that the index lists (II.24.2.6).
pub trait CodedRow<'m, W: Row<'m>>: Sized {
    // the coded index
    ghost CODED: { Index };

    // the table of the row
    ghost table_of: { Self → Table };

    // the content of its record: the fields in the order of the columns
    ghost fields: { Self → List TheCell };

    /// The coded index.
    const CODED: Coded;

    /// The record of a row of a table that the index lists.
    fn from_row_of(table: TableId, row: &W) -> Self
        requires listed { IsOneOf (tables_of CODED) table }
        requires held { AreHeld (W.holds row.now) 0 (kinds_of table) }
        ensures table { table_of result ≡ table }
        ensures said { AreSaid (W.says row.now) 0 (kinds_of table) (fields result) };

    /// The coded index.
    final fn coded_id() -> Coded
        ensures { result ≡ CODED }
    {
        Self::CODED
    }
}

/// Whether a coded index lists a table (II.24.2.6).
#[tactic(auto, using(crate::proofs::ListedLemmas::is_one_of))]
pub fn lists(coded: Coded, table: TableId) -> bool
    ensures listed { IsTrue result ↔ Contains (tables_of coded) (Some table) }
    ensures one { IsTrue result → IsOneOf (tables_of coded) table }
{
    table_schema::lists(coded.tables(), table)
}

/// The record of the cells of a row of a table. `None` if the coded index does not list the table, or the
/// cells do not have the number and kinds of its rows.
#[tactic(auto, using(crate::proofs::RowLemmas::cells_are_held))]
pub fn coded_row_of<'m, R: CodedRow<'m, CellRow<'m>>>(
    table: TableId,
    cells: &'m [Cell],
) -> Option<R>
    ensures there { IsSome result ↔ (Contains (tables_of R.CODED) (Some table) × AreOfKinds (kinds_of table) (all_said cells.now)) }
    ensures table { IfSome result (λ it. R.table_of it ≡ table) }
    ensures fields { IfSome result (λ it. R.fields it ≡ all_said cells.now) }
{
    if !lists(R::CODED, table) || !is_row_of(table, cells) {
        return None;
    }
    Some(R::from_row_of(table, &CellRow { cells }))
}
