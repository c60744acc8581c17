ghost use Rattle.std.specs.Prelude.{◌≡◌, ◌≤◌};
ghost use Rattle.metadata.specs.Metadata.{Metadata};
ghost use Rattle.metadata.specs.Model.{IsModel};
ghost use Rattle.opening.specs.Views.{row_count as rows_of_root};

use crate::ref_row::RefRow;
use crate::row_values::cells_of;
use opening::View;
use table_schema::TableId;
use type_records::Row;

/// A reference to what holds the rows of one metadata. The parts of a row live as long as what it is read from.
pub trait ReadRows<'m> {
    ghost use Rattle.std.specs.Prelude.{◌≡◌, ◌≤◌, ℕ, List};
    ghost use Rattle.table_schema.specs.declared.table.TableId.{TableId as Table};
    ghost use Rattle.metadata.specs.Cell.{Cell as TheCell};
    ghost use Rattle.metadata.specs.Metadata.{Metadata, count_in, row_of};
    ghost use Rattle.type_records.specs.Kinds.{kinds_of};
    ghost use Rattle.type_records.specs.Shapes.{AreHeld, AreSaid};

    /// The form of its rows.
    type Form: Row<'m> + Drop;

    // It has the rows of this metadata.
    ghost shows: { Self → Metadata → Type 0 };

    // How many rows a table has.
    ghost row_count: { Self → Table → ℕ };

    /// The tables of the metadata that it shows have this number of rows. Nothing is done.
    fn holds_rows(&self)
        ensures { (model : Metadata) → shows self.now model → (table : Table) → count_in model table ≡ row_count self.now table };

    /// The number of rows of a table.
    fn count_rows(&self, table: TableId) -> u32
        ensures rows { result ≡ row_count self.now table }
        ensures limit { result ≤ 0xFFFFFF };

    /// A row, counted from 1, which exists.
    fn row_at(&self, table: TableId, row: u32) -> Self::Form
        requires first { 1 ≤ row }
        requires last { row ≤ row_count self.now table }
        // Its cells hold what the columns of the table hold.
        ensures held { AreHeld (Self.Form.holds result) 0 (kinds_of table) }
        // All that they say is the row.
        ensures complete { (model : Metadata) → shows self.now model → (cells : List TheCell)
            → AreSaid (Self.Form.says result) 0 (kinds_of table) cells → cells ≡ row_of model table row };
}

impl<'a> ReadRows<'a> for &View<'a> {
    type Form = RefRow<'a>;

    ghost shows = { λ view model. IsModel view.now model };

    ghost row_count = { λ view table. rows_of_root view.now table };

    fn holds_rows(&self) {
        metadata::laws::models_are_read();
    }

    fn count_rows(&self, table: TableId) -> u32 {
        self.count(table)
    }

    fn row_at(&self, table: TableId, row: u32) -> RefRow<'a> {
        cells_of(self, table, row)
    }
}
