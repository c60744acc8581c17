ghost use Rattle.std.specs.Prelude.{◌≡◌, ◌≤◌, ◌<◌, ◌-◌, ℕ, length, slice_index};
ghost use Rattle.std.specs.Iterator.{YieldsFirst, item_count};
ghost use Rattle.table_schema.specs.declared.column.ColumnKind.TheVariants.{List};
ghost use Rattle.table_schema.specs.Columns.{columns_of, column_at};
ghost use Rattle.table_schema.specs.CellColumns.{cell_count, column_of};
ghost use Rattle.metadata.specs.Cell.{Start};
ghost use Rattle.metadata.specs.Metadata.{Metadata, cell_in};
ghost use Rattle.metadata.specs.Source.{rows_in};
ghost use Rattle.metadata.specs.Starts.{start_of};
ghost use Rattle.reading.specs.Starts.{down_from};
ghost use Rattle.reading.specs.ReadFrom.{IsReadFrom};

use crate::runs_of::start_before;
use crate::source::Source;
use std::marker::Model;
use table_schema::{TableId, column_of_cell};

/// The starts of the runs of all owners in a column that lists members, from the last owner to the first.
///
/// Each list value is read once, because a null start is that of the next owner. It does not allocate.
#[derive(Drop)]
pub struct Starts<'v, 'a> {
    source: &'v Source<'a>,
    owner: TableId,
    column: usize,
    member: TableId,
    row: u32,
    next: u32,
}

impl<'v, 'a> Model for Starts<'v, 'a> {
    ghost use Rattle.std.specs.Prelude.{ℕ, List};
    ghost use Rattle.reading.specs.Starts.{starts_left, AreStartsLeft};

    ghost Value = { List ℕ };

    ghost view = { starts_left };

    ghost invariant = { AreStartsLeft };
}

impl<'v, 'a> Starts<'v, 'a> {
    /// The starts of all owners, in a column that lists rows of the member table.
    pub fn new(
        source: &'v Source<'a>,
        owner: TableId,
        column: usize,
        member: TableId,
    ) -> Starts<'v, 'a>
        requires { column < length (columns_of owner) }
        ensures { result ≡ down_from (λ row. start_of source.now.source owner row column member) (rows_in source.now.source owner) }
    {
        Starts {
            source,
            owner,
            column,
            member,
            row: source.count(owner),
            next: source.count(member) + 1,
        }
    }
}

impl<'v, 'a> Iterator for Starts<'v, 'a> {
    type Item = u32;

    ghost next_gives = { YieldsFirst (λ starts. starts) };

    ghost remaining = { item_count (λ starts. starts) };

    fn next(&mut self) -> Option<u32> {
        if self.row == 0 {
            return None;
        }
        let start = start_before(
            self.source,
            self.owner,
            self.row,
            self.column,
            self.member,
            self.next,
        );
        self.row -= 1;
        self.next = start;
        Some(start)
    }
}

/// The starts in a column, by the index of its cell in the row (II.22).
pub fn starts_of<'v, 'a>(
    source: &'v Source<'a>,
    table: TableId,
    cell: usize,
    member: TableId,
) -> Starts<'v, 'a>
    requires cell { cell < cell_count table }
    requires list { (column_at table (column_of table cell)).kind ≡ List member }
    ensures count { length result ≡ rows_in source.now.source table }
    ensures model { (model : Metadata) → IsReadFrom source.now.source model → (row : ℕ) → 1 ≤ row → row ≤ rows_in source.now.source table
        → cell_in model table row cell ≡ Start (slice_index result (rows_in source.now.source table - row)) }
{
    Starts::new(source, table, column_of_cell(table, cell), member)
}
