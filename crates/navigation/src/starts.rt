//! The starts in a list of members, and the keys of NestedClass, read in one pass.
ghost use Rattle.std.specs.Prelude.{◌≡◌, IfOk};
ghost use Rattle.navigation.specs.Starts.{AreNestedKeys, AreStarts};

use metadata_source::MemberList;
use opening::{CellCursor, ReadMetadata, View};
use std::alloc::{AllocError, Global};
use table_schema::TableId;

/// The cell of the nested type, the key of NestedClass (II.22.32).
pub(crate) const NESTED: usize = 0;

/// The starts of all owners in a list.
pub(crate) fn starts_of(
    alloc: Global,
    view: &View<'_>,
    list: MemberList,
) -> Result<Vec<u32>, AllocError>
    ensures { IfOk result (λ starts. AreStarts view.now list starts.items) }
{
    let owners = view.count(list.owner());
    let mut starts = Vec::with_capacity(alloc, owners as usize)?;
    let mut cells = CellCursor::new(view);
    for earlier in 0..owners {
        let run = cells.run(list, earlier + 1);
        starts.push(run.start)?;
    }
    Ok(starts)
}

/// The key numbers of NestedClass (II.22.32), in the order of its rows.
#[tactic(auto, unfolding(table_schema::specs::CellColumns::cell_columns))]
pub(crate) fn nested_keys(alloc: Global, view: &View<'_>) -> Result<Vec<u32>, AllocError>
    ensures { IfOk result (λ keys. AreNestedKeys view.now keys.items) }
{
    let count = view.count(TableId::NestedClass);
    let mut keys = Vec::with_capacity(alloc, count as usize)?;
    for earlier in 0..count {
        keys.push(view.key(TableId::NestedClass, earlier + 1, NESTED))?;
    }
    Ok(keys)
}
