//! The cells of a view, read in a pass over its rows.
ghost use Rattle.std.specs.Prelude.{◌≡◌, ◌≤◌, ◌<◌};
ghost use Rattle.table_schema.specs.CellColumns.{cell_count, column_of};
ghost use Rattle.metadata.specs.Cell.{Start};
ghost use Rattle.metadata.specs.Lookups.{IsRun};
ghost use Rattle.metadata.specs.Metadata.{Metadata, cell_in};
ghost use Rattle.metadata.specs.Model.{IsModel};
ghost use Rattle.metadata.specs.Source.{number_of};
ghost use Rattle.metadata.specs.SourceAt.{source_of};
ghost use Rattle.metadata.specs.MemberLists.{owner_of, cell_of, member_of};
ghost use Rattle.reading.specs.Cursors.{AreCursors};
ghost use Rattle.reading.specs.Shown.{ShowsCell, ShowsBlob};
ghost use Rattle.opening.specs.Views.{row_count, HasModel};

use crate::view::View;
use metadata_source::MemberList;
use reading::{CellRef, RunCursors, cell_onward};
use std::marker::Model;
use std::ops::Range;
use table_schema::{TableId, column_of_cell};

/// The cells of a view, for a pass over its rows in ascending order (II.22).
///
/// It returns what the view does. It remembers the starts that it found last, so that a pass over the rows of a table
/// in ascending order reads each list value at most once. In any other order a call takes no longer than that of the
/// view. It does not allocate.
#[derive(Drop)]
pub struct CellCursor<'v, 'a> {
    view: &'v View<'a>,
    cursors: RunCursors,
}

impl<'v, 'a> Model for CellCursor<'v, 'a> {
    ghost use Rattle.std.specs.Prelude.{ℕ, List};
    ghost use Rattle.metadata.specs.SourceAt.{source_of};
    ghost use Rattle.reading.specs.Cursors.{AreCursors};

    ghost Value = { List ℕ };

    ghost view = { λ cells. cells.view.now };

    ghost invariant = { λ cells. AreCursors (source_of cells.view.now) cells.cursors };
}

impl<'v, 'a> CellCursor<'v, 'a> {
    /// The cells of a view, before the first row.
    pub fn new(view: &'v View<'a>) -> CellCursor<'v, 'a>
        ensures { result ≡ view.now }
    {
        CellCursor {
            view,
            cursors: RunCursors::new(),
        }
    }

    /// The view, whose root has a model.
    pub fn view(&self) -> &'v View<'a>
        ensures view { result.now ≡ self.now }
        ensures model { HasModel self.now }
    {
        // The root of a view has a model.
        let _root = self.view.root();
        self.view
    }

    /// A cell of a row, as [`View::cell`] returns it.
    #[inline]
    pub fn cell(&mut self, table: TableId, row: u32, column: usize) -> CellRef<'a>
        requires first { 1 ≤ row }
        requires last { row ≤ row_count self.old table }
        requires column { column < cell_count table }
        ensures same { self.new ≡ self.old }
        ensures cell { (model : Metadata) → IsModel self.old model → ShowsCell table column result (cell_in model table row column) }
        ensures blob { ShowsBlob (source_of self.old) (number_of (source_of self.old) table row (column_of table column)) result }
    {
        cell_in_pass(self.view, &mut self.cursors, table, row, column)
    }

    /// The run of members of an owner, as rows of the table of members: from its start to that of the next owner, or to
    /// the last member.
    pub fn run(&mut self, list: MemberList, row: u32) -> Range<u32>
        requires first { 1 ≤ row }
        requires last { row ≤ row_count self.old (owner_of list) }
        ensures same { self.new ≡ self.old }
        ensures run { (model : Metadata) → IsModel self.old model
            → IsRun model (owner_of list) (cell_of list) (member_of list) row result.start result.end }
    {
        let view = self.view;
        let first = self.start(list, row);
        if row == view.count(list.owner()) {
            return first..view.count(list.member()) + 1;
        }
        first..self.start(list, row + 1)
    }

    /// Where the run of an owner begins.
    fn start(&mut self, list: MemberList, row: u32) -> u32
        requires first { 1 ≤ row }
        requires last { row ≤ row_count self.old (owner_of list) }
        ensures same { self.new ≡ self.old }
        ensures start { (model : Metadata) → IsModel self.old model → cell_in model (owner_of list) row (cell_of list) ≡ Start result }
    {
        let view = self.view;
        self.cursors
            .start_at(view.source(), view.known(), list, row)
    }
}

/// A cell of a row of a view, with cursors for its runs.
#[inline]
pub(crate) fn cell_in_pass<'a>(
    view: &View<'a>,
    cursors: &mut RunCursors,
    table: TableId,
    row: u32,
    column: usize,
) -> CellRef<'a>
    requires cursors { AreCursors (source_of view.now) cursors.old }
    requires first { 1 ≤ row }
    requires last { row ≤ row_count view.now table }
    requires column { column < cell_count table }
    ensures cursors { AreCursors (source_of view.now) cursors.new }
    ensures cell { (model : Metadata) → IsModel view.now model → ShowsCell table column result (cell_in model table row column) }
    ensures blob { ShowsBlob (source_of view.now) (number_of (source_of view.now) table row (column_of table column)) result }
{
    cell_onward(
        view.source(),
        view.known(),
        cursors,
        table,
        row,
        column_of_cell(table, column),
    )
}
