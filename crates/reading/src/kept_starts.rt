ghost use Rattle.std.specs.Prelude.{◌≡◌, ◌≤◌, ◌<◌, ◌+◌, length};
ghost use Rattle.table_schema.specs.Columns.{columns_of};
ghost use Rattle.metadata.specs.Source.{rows_in};
ghost use Rattle.metadata.specs.Starts.{start_of};
ghost use Rattle.reading.specs.KnownStarts.{IsKnownIn, AreKnown};

use crate::known_starts::{KnownRuns, KnownStarts};
use crate::source::Source;
use table_schema::TableId;

/// The starts that are kept of the five runs of members (II.22.37, II.22.26, II.22.12 and II.22.35).
///
/// It reads the list values of the owners whose starts are kept. If a value is null, it reads those of the next owners,
/// each at most once.
pub fn known_runs(source: &Source) -> KnownRuns
    ensures { AreKnown source.now.source result }
{
    KnownRuns {
        fields: starts_in(source, TableId::TypeDef, 4, TableId::Field),
        methods: starts_in(source, TableId::TypeDef, 5, TableId::MethodDef),
        params: starts_in(source, TableId::MethodDef, 5, TableId::Param),
        events: starts_in(source, TableId::EventMap, 1, TableId::Event),
        properties: starts_in(source, TableId::PropertyMap, 1, TableId::Property),
    }
}

/// The starts that are kept of a column that lists members, from the last owner to the first.
fn starts_in(source: &Source, owner: TableId, column: usize, member: TableId) -> KnownStarts
    requires column { column < length (columns_of owner) }
    ensures { IsKnownIn source.now.source owner column member result }
{
    let count = source.count(owner);
    let mut known = KnownStarts::new(count);
    let step = known.step;
    let mut end = count + 1;
    let mut start = source.count(member) + 1;
    let mut kept = count / step;
    while kept > 0 {
        let row = kept * step;
        start = start_up_to(source, owner, row, end, column, member, start);
        known.keep(row, start);
        end = row;
        kept -= 1;
    }
    known
}

/// The start of an owner's run, from the list values of the owners before an end, and the start of that end.
fn start_up_to(
    source: &Source,
    owner: TableId,
    row: u32,
    end: u32,
    column: usize,
    member: TableId,
    next: u32,
) -> u32
    requires first { 1 ≤ row }
    requires order { row ≤ end }
    requires last { end ≤ rows_in source.now.source owner + 1 }
    requires column { column < length (columns_of owner) }
    requires next { next ≡ start_of source.now.source owner end column member }
    ensures { result ≡ start_of source.now.source owner row column member }
{
    for later in row..end {
        let number = source.number(owner, later, column);
        if number != 0 {
            return number;
        }
    }
    next
}
