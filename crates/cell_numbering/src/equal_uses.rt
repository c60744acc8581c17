ghost use Rattle.std.specs.Prelude.{◌≡◌, ◌<◌, ℕ, List, IfOk, length, slice_index, slice_index_or, vec_len};
ghost use Rattle.std.specs.List.{AllZip};
ghost use Rattle.metadata.specs.Metadata.{Metadata};
ghost use Rattle.cell_numbering.specs.declared.blob_use.BlobUse.{BlobUse as Use};
ghost use Rattle.cell_numbering.specs.EqualUses.{AreEarlierUses, IsPlainAt};
ghost use Rattle.cell_numbering.specs.HeapUses.{IsUseIn};

use crate::blob_use::BlobUse;
use heap_pools::own_firsts;
use heaps::equal_blobs;
use metadata_source::{ReadCells, SignatureBytes};
use std::alloc::{AllocError, Global};
use table_schema::ColumnKind;

/// The index of a use in the blob heap, if its blob is there and has bytes; otherwise 0. For a signature another blob may
/// be written than is there.
fn plain_index(found: &BlobUse<'_>) -> u32
    ensures { 0 < result → IsPlainAt found.now result }
{
    match (&found.bytes, found.kind) {
        (SignatureBytes::Stored(bytes), ColumnKind::Blob) if !bytes.is_empty() => {
            found.index.unwrap_or(0)
        }
        _ => 0,
    }
}

/// The index of each use in the blob heap.
fn plain_indexes(alloc: Global, uses: &[BlobUse<'_>]) -> Result<Vec<u32>, AllocError>
    ensures len { IfOk result (λ indexes. vec_len indexes ≡ length uses.now) }
    ensures plain { IfOk result (λ indexes. (k : ℕ) (d : Use) → k < length uses.now → 0 < slice_index indexes.items k
        → IsPlainAt (slice_index_or uses.now k d) (slice_index indexes.items k)) }
{
    let mut indexes = Vec::with_capacity(alloc, uses.len())?;
    for found in uses {
        indexes.push(plain_index(found))?;
    }
    Ok(indexes)
}

/// For each use an earlier one of its blob, or itself. They are found in the heap that the blobs are read from.
pub fn equal_uses<S: ReadCells>(
    alloc: Global,
    source: &S,
    uses: &[BlobUse<'_>],
) -> Result<Vec<usize>, AllocError>
    requires { ¬ (¬ ((model : Metadata) × S.shows source.now model × ((blobs : List (List ℕ)) × AllZip (IsUseIn (S.heap_index source.now) model) uses.now blobs))) }
    ensures len { IfOk result (λ earlier. vec_len earlier ≡ length uses.now) }
    ensures earlier { IfOk result (λ earlier. AreEarlierUses uses.now earlier.items) }
{
    heap_entries::laws::entries_are_one();
    let Some(heap) = source.blob_heap() else {
        return own_firsts(alloc, uses.len());
    };
    let indexes = plain_indexes(alloc, uses)?;
    Ok(equal_blobs(alloc, heap, &indexes)?)
}
