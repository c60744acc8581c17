ghost use Rattle.std.specs.Prelude.{◌≡◌, ◌≤◌, ◌<◌, ◌+◌, length};
ghost use Rattle.table_schema.specs.declared.column.ColumnKind.TheVariants.{List};
ghost use Rattle.table_schema.specs.Columns.{columns_of, column_at};
ghost use Rattle.metadata.specs.Cell.{Start};
ghost use Rattle.metadata.specs.MemberLists.{owner_of, cell_of};
ghost use Rattle.metadata.specs.Metadata.{Metadata, cell_in};
ghost use Rattle.metadata.specs.Source.{rows_in};
ghost use Rattle.metadata.specs.Starts.{start_of};
ghost use Rattle.reading.specs.ReadFrom.{IsReadFrom};
ghost use Rattle.reading.specs.KnownStarts.{AreKnown};

use crate::known_starts::KnownRuns;
use crate::source::Source;
use crate::start_cursor::StartCursor;
use metadata::MemberList;
use table_schema::TableId;

/// Where the run of an owner begins.
pub fn start_at(source: &Source, known: &KnownRuns, list: MemberList, row: u32) -> u32
    requires known { AreKnown source.now.source known.now }
    requires first { 1 ≤ row }
    requires last { row ≤ rows_in source.now.source (owner_of list) }
    ensures { (model : Metadata) → IsReadFrom source.now.source model → cell_in model (owner_of list) row (cell_of list) ≡ Start result }
{
    start(source, known, list.owner(), row, list.cell(), list.member())
}

/// The start of an owner's run: its list value, or the start of the next owner if the value is null. After the
/// last owner, it is one more than the last member.
///
/// Null values are passed up to an owner whose start is known.
pub fn start(
    source: &Source,
    known: &KnownRuns,
    owner: TableId,
    row: u32,
    column: usize,
    member: TableId,
) -> u32
    requires first { 1 ≤ row }
    requires column { column < length (columns_of owner) }
    requires list { (column_at owner column).kind ≡ List member }
    requires known { AreKnown source.now.source known.now }
    ensures { result ≡ start_of source.now.source owner row column member }
{
    StartCursor::at(source, known, owner, row, column, member).start
}

/// The start of an owner's run, from its list value and the start of the next owner.
#[tactic(auto, using(crate::proofs::StartLemmas::start_here, crate::proofs::StartLemmas::start_next))]
pub fn start_before(
    source: &Source,
    owner: TableId,
    row: u32,
    column: usize,
    member: TableId,
    next: u32,
) -> u32
    requires first { 1 ≤ row }
    requires last { row ≤ rows_in source.now.source owner }
    requires column { column < length (columns_of owner) }
    requires next { next ≡ start_of source.now.source owner (row + 1) column member }
    ensures { result ≡ start_of source.now.source owner row column member }
{
    let number = source.number(owner, row, column);
    if number == 0 { next } else { number }
}
