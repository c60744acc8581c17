ghost use Rattle.std.specs.Prelude.{◌≡◌, ◌≤◌, ◌↔◌, Some, IsSome, IfSome, Contains};
ghost use Rattle.table_schema.specs.CodedIndexes.{tables_of};
ghost use Rattle.metadata.specs.Metadata.{Metadata, rows_of, row_of, count_in};
ghost use Rattle.metadata.specs.Lookups.{HasRow};
ghost use Rattle.owned_model.specs.RowsLeft.{rows_between};

use crate::valid_model::Model;
use crate::{ReadRows, Records};
use table_schema::{TableId, Token};
use type_records::{CellRow, CodedRow, FromRow};

impl<'m> ReadRows<'m> for &'m Model {
    type Form = CellRow<'m>;

    ghost shows = { λ model other. model.now ≡ other };

    ghost row_count = { λ model table. count_in model.now table };

    fn holds_rows(&self) {}

    fn count_rows(&self, table: TableId) -> u32 {
        self.count(table)
    }

    fn row_at(&self, table: TableId, row: u32) -> CellRow<'m> {
        // The cells are those of a valid model.
        let _tables = self.tables();
        CellRow {
            cells: self.cells(table, row),
        }
    }
}

impl Model {
    /// The record of a row, counted from 1; `None` if the table has no such row.
    pub fn row<'m, R: FromRow<'m, CellRow<'m>>>(&'m self, row: u32) -> Option<R>
        ensures there { IsSome result ↔ HasRow self.now R.TABLE row }
        ensures fields { IfSome result (λ it. R.fields it ≡ row_of self.now R.TABLE row) }
    {
        crate::row(self, row)
    }

    /// The records of a table's rows, in order.
    pub fn rows<'m, R: FromRow<'m, CellRow<'m>>>(&'m self) -> Records<'m, &'m Model, R>
        ensures left { result ≡ record { source = self.entry; next = 1; last = count_in self.now R.TABLE } }
        // They are the rows of the table.
        ensures rows { rows_between self.now R.TABLE result.next result.last ≡ rows_of self.now R.TABLE }
    {
        crate::rows(self)
    }

    /// The record of the row that a token names, in the variant of its table; `None` if the coded index does
    /// not list that table (II.24.2.6), or the table has no such row.
    pub fn resolve<'m, R: CodedRow<'m, CellRow<'m>>>(&'m self, token: Token) -> Option<R>
        ensures there { IsSome result ↔ (Contains (tables_of R.CODED) (Some token.table) × HasRow self.now token.table token.row) }
        ensures table { IfSome result (λ it. R.table_of it ≡ token.table) }
        ensures fields { IfSome result (λ it. R.fields it ≡ row_of self.now token.table token.row) }
    {
        crate::resolve(self, token)
    }
}
