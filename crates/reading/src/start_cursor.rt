ghost use Rattle.std.specs.Prelude.{◌≡◌, ◌≤◌, ◌<◌, ◌⊎◌, ℕ, length};
ghost use Rattle.table_schema.specs.declared.column.ColumnKind.TheVariants.{List};
ghost use Rattle.table_schema.specs.Columns.{columns_of, column_at};
ghost use Rattle.metadata.specs.Source.{rows_in};
ghost use Rattle.metadata.specs.Starts.{start_of};
ghost use Rattle.reading.specs.KnownStarts.{AreKnown};
ghost use Rattle.reading.specs.Cursors.{IsCursor, IsCursorIn};

use crate::known_starts::KnownRuns;
use crate::source::Source;
use table_schema::TableId;

/// A start in a column that lists members, and the owners that have it: those from a first to a last.
///
/// A null start is that of the next owner, so owners with null starts share one. The cursor passes over them once.
/// In a pass over the owners in ascending order each list value is read at most once. A call for an earlier owner, or
/// for one after the last, begins anew at that owner. No call passes over more than 1/256 of the owners.
#[derive(Clone, Copy)]
pub struct StartCursor {
    first: u32,
    last: u32,
    pub(crate) start: u32,
}

impl StartCursor {
    /// A cursor at no owner.
    pub fn new() -> StartCursor
        ensures { (start : ℕ → ℕ) → IsCursor result start }
    {
        StartCursor {
            first: 1,
            last: 0,
            start: 0,
        }
    }

    /// A cursor at an owner. It passes over null values up to an owner whose start is known.
    pub(crate) fn at(
        source: &Source,
        known: &KnownRuns,
        owner: TableId,
        row: u32,
        column: usize,
        member: TableId,
    ) -> StartCursor
        requires first { 1 ≤ row }
        requires column { column < length (columns_of owner) }
        requires list { (column_at owner column).kind ≡ List member }
        requires known { AreKnown source.now.source known.now }
        ensures first { result.first ≡ row }
        ensures reaches { row ≤ rows_in source.now.source owner → row ≤ result.last }
        ensures start { result.start ≡ start_of source.now.source owner row column member }
        ensures cursor { IsCursorIn source.now.source owner column member result }
    {
        for later in row..source.count(owner) + 1 {
            let number = source.number(owner, later, column);
            if number != 0 {
                return StartCursor {
                    first: row,
                    last: later,
                    start: number,
                };
            }
            if let Some(start) = known.at(owner, column, later) {
                return StartCursor {
                    first: row,
                    last: later,
                    start,
                };
            }
        }
        StartCursor {
            first: row,
            last: source.count(owner),
            start: source.count(member) + 1,
        }
    }

    /// The start of an owner's run: its list value, or the start of the next owner if the value is null. After the
    /// last owner, it is one more than the last member.
    ///
    /// It reads nothing for an owner that the cursor is at.
    pub fn start(
        &mut self,
        source: &Source,
        known: &KnownRuns,
        owner: TableId,
        row: u32,
        column: usize,
        member: TableId,
    ) -> u32
        requires first { 1 ≤ row }
        requires column { column < length (columns_of owner) }
        requires list { (column_at owner column).kind ≡ List member }
        requires known { AreKnown source.now.source known.now }
        requires cursor { IsCursorIn source.now.source owner column member self.old }
        ensures start { result ≡ start_of source.now.source owner row column member }
        ensures cursor { IsCursorIn source.now.source owner column member self.new }
        ensures stays { self.old.first ≤ row → row ≤ self.old.last → self.new ≡ self.old }
        ensures moves { (row < self.old.first) ⊎ (self.old.last < row) → self.new.first ≡ row }
        ensures reaches { row ≤ rows_in source.now.source owner → (self.new.first ≤ row) × (row ≤ self.new.last) }
    {
        if row < self.first || self.last < row {
            *self = StartCursor::at(source, known, owner, row, column, member);
        }
        self.start
    }
}
