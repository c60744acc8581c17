//! Rows that can be printed.
ghost use Rattle.cli_cells.specs.Words.{row_count};
ghost use Rattle.cli_cells.specs.Shown.{IsContent};

use opening::{CellCursor, CellRef, TableId};

/// Rows that can be printed: those of a whole view, or those of a broken root that precede its first broken row.
pub trait ShownRows<'a> {
    ghost use Rattle.std.specs.Prelude.{◌≡◌, ◌≤◌, ◌<◌, ℕ};
    ghost use Rattle.table_schema.specs.declared.table.TableId.{TableId as Table};
    ghost use Rattle.table_schema.specs.CellColumns.{cell_count};
    ghost use Rattle.metadata.specs.Cell.{Cell};
    ghost use Rattle.reading.specs.Shown.{ShowsCell};
    ghost use Rattle.cli_cells.specs.Shown.{Content};

    // It shows this content.
    ghost shows: { Self → Content → Type 0 };

    // The number of rows of a table that can be printed, from the first.
    ghost ready_rows: { Self → Table → ℕ };

    /// The number of rows of a table, whether or not they can be printed.
    fn count(&self, table: TableId) -> u32
        ensures { (content : Content) → shows self.now content → result ≡ content.count table };

    /// The number of rows of a table that can be printed, from the first.
    fn ready(&self, table: TableId) -> u32
        ensures { result ≡ ready_rows self.now table };

    /// A cell of a row that can be printed.
    fn cell(&mut self, table: TableId, row: u32, cell_index: usize) -> CellRef<'a>
        requires first { 1 ≤ row }
        requires last { row ≤ ready_rows self.old table }
        requires cell_index { cell_index < cell_count table }
        ensures same { self.new ≡ self.old }
        ensures some { ¬ (¬ ((cell : Cell) × ShowsCell table cell_index result cell)) }
        ensures cell { (content : Content) → shows self.old content → ShowsCell table cell_index result (content.cell table row cell_index) };
}

impl<'a> ShownRows<'a> for CellCursor<'_, 'a> {
    ghost shows = { IsContent };

    ghost ready_rows = { row_count };

    fn count(&self, table: TableId) -> u32 {
        self.view().count(table)
    }

    fn ready(&self, table: TableId) -> u32 {
        self.view().count(table)
    }

    fn cell(&mut self, table: TableId, row: u32, cell_index: usize) -> CellRef<'a> {
        // The root of a view has a model.
        let _view = self.view();
        CellCursor::cell(self, table, row, cell_index)
    }
}
