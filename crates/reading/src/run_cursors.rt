ghost use Rattle.std.specs.Prelude.{◌≡◌, ◌≤◌, ◌<◌, length};
ghost use Rattle.table_schema.specs.declared.column.ColumnKind.TheVariants.{List};
ghost use Rattle.table_schema.specs.Columns.{columns_of, column_at};
ghost use Rattle.metadata.specs.Cell.{Start};
ghost use Rattle.metadata.specs.MemberLists.{owner_of, cell_of};
ghost use Rattle.metadata.specs.Metadata.{Metadata, cell_in};
ghost use Rattle.metadata.specs.Source.{Source as TheSource, rows_in};
ghost use Rattle.metadata.specs.Starts.{start_of};
ghost use Rattle.reading.specs.KnownStarts.{AreKnown};
ghost use Rattle.reading.specs.ReadFrom.{IsReadFrom};
ghost use Rattle.reading.specs.Cursors.{AreCursors};

use crate::known_starts::KnownRuns;
use crate::runs_of::start;
use crate::source::Source;
use crate::start_cursor::StartCursor;
use metadata::MemberList;
use table_schema::TableId;

/// A cursor for each of the five runs of members (II.22.37, II.22.26, II.22.12 and II.22.35).
///
/// With it a pass over the rows of a table in ascending order reads each list value at most once.
#[derive(Clone, Copy)]
pub struct RunCursors {
    fields: StartCursor,
    methods: StartCursor,
    params: StartCursor,
    events: StartCursor,
    properties: StartCursor,
}

impl RunCursors {
    /// Cursors at no owner.
    pub fn new() -> RunCursors
        ensures { (source : TheSource) → AreCursors source result }
    {
        RunCursors {
            fields: StartCursor::new(),
            methods: StartCursor::new(),
            params: StartCursor::new(),
            events: StartCursor::new(),
            properties: StartCursor::new(),
        }
    }

    /// The start of an owner's run, by the column that lists its members, as [`StartCursor::start`] finds it.
    pub fn start(
        &mut self,
        source: &Source,
        known: &KnownRuns,
        owner: TableId,
        row: u32,
        column: usize,
        member: TableId,
    ) -> u32
        requires first { 1 ≤ row }
        requires column { column < length (columns_of owner) }
        requires list { (column_at owner column).kind ≡ List member }
        requires known { AreKnown source.now.source known.now }
        requires cursors { AreCursors source.now.source self.old }
        ensures start { result ≡ start_of source.now.source owner row column member }
        ensures cursors { AreCursors source.now.source self.new }
    {
        match (owner, column) {
            (TableId::TypeDef, 4) => self.fields.start(source, known, owner, row, column, member),
            (TableId::TypeDef, 5) => self
                .methods
                .start(source, known, owner, row, column, member),
            (TableId::MethodDef, 5) => self.params.start(source, known, owner, row, column, member),
            (TableId::EventMap, 1) => self.events.start(source, known, owner, row, column, member),
            (TableId::PropertyMap, 1) => {
                self.properties
                    .start(source, known, owner, row, column, member)
            }
            _ => start(source, known, owner, row, column, member),
        }
    }

    /// Where the run of an owner begins.
    pub fn start_at(
        &mut self,
        source: &Source,
        known: &KnownRuns,
        list: MemberList,
        row: u32,
    ) -> u32
        requires first { 1 ≤ row }
        requires last { row ≤ rows_in source.now.source (owner_of list) }
        requires known { AreKnown source.now.source known.now }
        requires cursors { AreCursors source.now.source self.old }
        ensures start { (model : Metadata) → IsReadFrom source.now.source model → cell_in model (owner_of list) row (cell_of list) ≡ Start result }
        ensures cursors { AreCursors source.now.source self.new }
    {
        self.start(source, known, list.owner(), row, list.cell(), list.member())
    }
}
