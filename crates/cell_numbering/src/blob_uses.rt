ghost use Rattle.std.specs.Prelude.{◌≡◌, ◌<◌, ◌++◌, ◌∷◌, [], IsTrue, OnOk, IfSome, length, slice_index_or};
ghost use Rattle.cell_numbering.specs.declared.blob_use.BlobUse.{BlobUse as Use};
ghost use Rattle.cell_numbering.specs.BlobUses.{IsAtIndex};

use crate::blob_use::BlobUse;
use crate::last_uses::LastUses;
use std::alloc::{AllocError, Global};
use table_schema::ColumnKind;

/// The uses of blobs. A use at the index of a kept one in a column of its kind is not kept, too: it refers to that one.
#[derive(Drop)]
pub struct BlobUses<'a> {
    /// Uses of all blobs, in order of use. Two of them may have the same blob.
    pub kept: Vec<BlobUse<'a>>,
    /// For each use the kept one that has its blob.
    pub of_use: Vec<usize>,
    /// The last kept use at each index.
    last: LastUses,
}

/// Whether a use is in a column of a kind, and at an index of a heap.
fn is_at(found: &BlobUse<'_>, kind: &ColumnKind, index: Option<u32>) -> bool
    ensures { IsTrue result → IsAtIndex found.now kind.now index }
{
    match index {
        Some(index) => found.index == Some(index) && found.kind == *kind,
        None => false,
    }
}

impl<'a> BlobUses<'a> {
    /// No uses yet.
    pub fn new(alloc: Global) -> BlobUses<'a>
        ensures kept { result.kept.items ≡ [] }
        ensures of_use { result.of_use.items ≡ [] }
    {
        BlobUses {
            kept: Vec::new(alloc),
            of_use: Vec::new(alloc),
            last: LastUses::new(alloc),
        }
    }

    /// The last kept use at an index, if it is in a column of this kind.
    pub fn known(&self, kind: ColumnKind, index: Option<u32>) -> Option<usize>
        ensures { IfSome result (λ known. (known < length self.now.kept.items) × ((d : Use) → IsAtIndex (slice_index_or self.now.kept.items known d) kind index)) }
    {
        let known = self.last.get(index?)?;
        if is_at(self.kept.get(known)?, &kind, index) {
            Some(known)
        } else {
            None
        }
    }

    /// Adds a use of the blob of a kept one.
    pub fn add_known(&mut self, known: usize) -> Result<(), AllocError>
        ensures kept { self.new.kept.items ≡ self.old.kept.items }
        ensures of_use { OnOk result (self.new.of_use.items ≡ self.old.of_use.items ++ known ∷ []) }
    {
        Ok(self.of_use.push(known)?)
    }

    /// Adds a use that is kept.
    pub fn add(&mut self, found: BlobUse<'a>) -> Result<(), AllocError>
        ensures kept { OnOk result (self.new.kept.items ≡ self.old.kept.items ++ found.entry ∷ []) }
        ensures of_use { OnOk result (self.new.of_use.items ≡ self.old.of_use.items ++ length self.old.kept.items ∷ []) }
    {
        let kept = self.kept.len();
        if let Some(index) = found.index {
            self.last.note(index, kept)?;
        }
        self.of_use.push(kept)?;
        Ok(self.kept.push(found)?)
    }
}
