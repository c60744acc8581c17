use navigation::{Neighbours, ReadCells};
use opening::View;

/// A metadata that is read from a view, which can find owners in other ways than the view does.
pub trait ReadView: ReadCells {
    ghost use Rattle.std.specs.Prelude.{◌≡◌};
    ghost use Rattle.table_schema.specs.declared.table.TableId.{TableId as Table};
    ghost use Rattle.metadata.specs.Metadata.{Metadata};
    ghost use Rattle.metadata.specs.Model.{IsModel};
    ghost use Rattle.opening.specs.Views.{row_count};

    /// The view.
    fn view(&self) -> &View<'_>
        ensures shown { (model : Metadata) → Self.shows self.now model → IsModel result.now model }
        ensures rows { (table : Table) → row_count result.now table ≡ Self.row_count self.now table };
}

impl ReadView for View<'_> {
    fn view(&self) -> &View<'_> {
        self
    }
}

impl ReadView for Neighbours<'_, '_> {
    fn view(&self) -> &View<'_> {
        self.view
    }
}
