ghost use Rattle.std.specs.Prelude.{◌≡◌, ◌^◌, ◌<◌, ◌⊎◌, ℕ, All, List, Err, IfOk, flat_map, length, map, vec_len};
ghost use Rattle.heap_pools.specs.declared.pool_error.PoolError.TheVariants.{Full};
ghost use Rattle.heap_pools.specs.BlobHeap.{blob_heap, blob_index};
ghost use Rattle.heap_pools.specs.Distinct.{distinct};
ghost use Rattle.heap_pools.specs.GuidHeap.{given, guid_heap, guid_index};
ghost use Rattle.heap_pools.specs.TextHeap.{text_heap};
ghost use Rattle.metadata.specs.Metadata.{Metadata};
ghost use Rattle.root_writer.specs.Pools.{pools_of as pools_in};
ghost use Rattle.root_writer.specs.Numbered.{IsNumbering, IsTooLong};
ghost use Rattle.cell_numbering.specs.BlobBytes.{AreWritten, all_bytes};
ghost use Rattle.cell_numbering.specs.BlobUses.{AreBlobUses};
ghost use Rattle.cell_numbering.specs.EqualUses.{AreEarlierUses};
ghost use Rattle.cell_numbering.specs.HeapUses.{IsUseOf};

use crate::blob_uses::BlobUses;
use crate::equal_uses::equal_uses;
use crate::heap_uses::heap_uses;
use crate::numbers::numbers_of;
use crate::numbers_so_far::Indexes;
use crate::use_indexes::indexes_of_uses;
use crate::written_blobs::{WrittenBlobs, slices_of, written_blobs};
use heap_pools::{PoolError, TextPool};
use heaps::{HeapPlan, SortedBlobs, SortedGuids};
use metadata_source::ReadCells;
use root_writer::Numbering;
use std::alloc::Global;

/// The GUID heap of the canonical root, planned from all GUIDs (II.24.2.5).
fn guid_plan(alloc: Global, guids: &[Option<[u8; 16]>]) -> Result<HeapPlan, PoolError>
    ensures heap { IfOk result (λ plan. plan.heap ≡ guid_heap (distinct (flat_map given guids.now))) }
    ensures indexes { IfOk result (λ plan. plan.indexes ≡ map (guid_index (distinct (flat_map given guids.now))) guids.now) }
    ensures full { result ≡ Err PoolError.Full → 2 ^ 30 < length (guid_heap (distinct (flat_map given guids.now))) }
{
    SortedGuids::sort(alloc, guids)?.lay_out(alloc)
}

/// The blob heap of the canonical root, planned from the blobs that were written (II.24.2.4).
fn written_plan(alloc: Global, written: WrittenBlobs<'_>) -> Result<HeapPlan, PoolError>
    requires written { AreWritten written.bytes.items written.firsts.items }
    requires short { All (λ blob. length blob < 2 ^ 29) (all_bytes written.bytes.items written.firsts.items) }
    ensures heap { IfOk result (λ plan. plan.heap ≡ blob_heap (distinct (all_bytes written.entry.bytes.items written.entry.firsts.items))) }
    ensures indexes { IfOk result (λ plan. plan.indexes
        ≡ map (blob_index (distinct (all_bytes written.entry.bytes.items written.entry.firsts.items))) (all_bytes written.entry.bytes.items written.entry.firsts.items)) }
    ensures full { result ≡ Err PoolError.Full → 2 ^ 30 < length (blob_heap (distinct (all_bytes written.entry.bytes.items written.entry.firsts.items))) }
{
    let WrittenBlobs { bytes, firsts, .. } = written;
    let blobs = slices_of(alloc, &bytes, &firsts)?;
    SortedBlobs::sort_from(alloc, &blobs, firsts)?.lay_out(alloc)
}

/// The blob heap of the canonical root, planned from all blobs, and the index of each use (II.24.2.4). For each kept use an
/// earlier one of its blob is given, or itself.
fn blob_plan(
    alloc: Global,
    uses: &BlobUses<'_>,
    earlier: &[usize],
) -> Result<(HeapPlan, Vec<u32>), PoolError>
    requires uses { ¬ (¬ ((blobs : List (List ℕ)) × AreBlobUses IsUseOf uses.now blobs)) }
    requires len { length earlier.now ≡ vec_len uses.now.kept }
    requires earlier { AreEarlierUses uses.now.kept.items earlier.now }
    ensures heap { (blobs : List (List ℕ)) → AreBlobUses IsUseOf uses.now blobs → IfOk result (λ plan. plan.0.heap ≡ blob_heap (distinct blobs)) }
    ensures indexes { (blobs : List (List ℕ)) → AreBlobUses IsUseOf uses.now blobs
        → IfOk result (λ plan. plan.1.items ≡ map (blob_index (distinct blobs)) blobs) }
    ensures full { (blobs : List (List ℕ)) → AreBlobUses IsUseOf uses.now blobs → result ≡ Err PoolError.Full
        → 2 ^ 30 < length (blob_heap (distinct blobs)) }
{
    let written = written_blobs(alloc, &uses.kept, earlier)?;
    let plan = written_plan(alloc, written)?;
    let indexes = indexes_of_uses(alloc, &uses.of_use, plan.indexes())?;
    Ok((plan, indexes))
}

/// The pools of the canonical root of a metadata, and the numbers of all its cells (II.24.2.3 to II.24.2.6).
///
/// It plans the heaps from all their values, and then numbers each cell, by table, row and column. It sorts the values,
/// so the time does not depend on who chose them. The memory of each heap, and that of the numbers, is allocated once.
///
/// # Errors
///
/// `Full` if one of the heaps would exceed 2^30 bytes, which is checked before the heap is allocated; `Memory` if out of
/// memory.
pub fn pools_of<S: ReadCells>(alloc: Global, source: &S) -> Result<(TextPool, Numbering), PoolError>
    ensures pools { (model : Metadata) → S.shows source.now model
        → IfOk result (λ pools. (pools.0.entries ≡ (pools_in model).texts) × IsNumbering model pools.1) }
    ensures full { (model : Metadata) → S.shows source.now model → result ≡ Err PoolError.Full
        → (2 ^ 30 < length (text_heap (pools_in model).texts)) ⊎ IsTooLong model }
{
    root_writer::laws::cells_can_be_numbered();
    source.holds_one();
    let uses = heap_uses(alloc, source)?;
    let (texts, text_indexes) = uses.texts.plan(alloc)?;
    let guids = guid_plan(alloc, &uses.guids)?;
    let earlier = equal_uses(alloc, source, &uses.blobs.kept)?;
    let (blobs, blob_indexes) = blob_plan(alloc, &uses.blobs, &earlier)?;
    drop(earlier);
    drop(uses);
    let indexes = Indexes {
        texts: &text_indexes,
        guids: guids.indexes(),
        blobs: &blob_indexes,
    };
    let numbers = numbers_of(alloc, indexes, source)?;
    Ok((texts, Numbering::new(blobs, guids, numbers)))
}
