ghost use Rattle.std.specs.Prelude.{◌≤◌};
ghost use Rattle.metadata.specs.Metadata.{Metadata};
ghost use Rattle.metadata.specs.Lookups.{IsRun};
ghost use Rattle.metadata.specs.MemberLists.{owner_of, cell_of, member_of};

use crate::source::ReadMetadata;
use metadata::MemberList;
use std::ops::Range;

/// The members of an owner, as rows of their table: from its start to that of the next owner, or to the last member (II.22.37,
/// II.22.26, II.22.12 and II.22.35).
pub fn members_of<S: ReadMetadata>(source: &S, list: MemberList, row: u32) -> Range<u32>
    requires first { 1 ≤ row }
    requires last { row ≤ S.row_count source.now (owner_of list) }
    ensures { (model : Metadata) → S.shows source.now model
        → IsRun model (owner_of list) (cell_of list) (member_of list) row result.start result.end }
{
    source.holds_one();
    let first = source.start(list, row);
    let past = if row < source.count(list.owner()) {
        source.start(list, row + 1)
    } else {
        source.count(list.member()) + 1
    };
    first..past
}
