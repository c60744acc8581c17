ghost use Rattle.std.specs.Prelude.{◌≡◌, ◌^◌, ◌<◌, ◌≤◌, ◌++◌, ◌∷◌, [], ℕ, List, All, Err, IfOk, length, slice_index, vec_len};
ghost use Rattle.std.specs.List.{AllZip};
ghost use Rattle.heap_pools.specs.declared.pool_error.PoolError.TheVariants.{Full};
ghost use Rattle.heap_pools.specs.BlobHeap.{blob_heap};
ghost use Rattle.heap_pools.specs.Distinct.{distinct};
ghost use Rattle.heap_pools.specs.Ranking.{used_at};
ghost use Rattle.heap_pools.specs.Uses.{bytes_of};
ghost use Rattle.cell_numbering.specs.EqualUses.{AreEarlierUses};
ghost use Rattle.cell_numbering.specs.HeapUses.{IsUseOf};
ghost use Rattle.cell_numbering.specs.BlobBytes.{AreWritten, AreWrittenAs, all_bytes, bytes_at, bytes_in};

use crate::blob_bytes::{BlobBytes, written_bytes};
use crate::blob_use::BlobUse;
use heap_pools::PoolError;
use heaps::SortedBlobs;
use std::alloc::{AllocError, Global};

/// The blobs that are written for uses. Of equal encodings of signatures, mostly one is stored.
#[derive(Drop)]
pub struct WrittenBlobs<'u> {
    /// The bytes of each use, if it is a first one.
    pub bytes: Vec<BlobBytes<'u>>,
    /// For each use a first one with its blob: an earlier one, or itself.
    pub firsts: Vec<usize>,
    /// The number of bytes of encodings that can be added before the equal ones are dropped.
    room: usize,
}

/// The least room for encodings, for all uses and for each of them. Dropping the equal ones takes time for each use.
const LEAST_ROOM: usize = 1 << 18;

const ROOM_PER_USE: usize = 16;

/// The room for encodings beside a heap of a length.
fn room_for(count: usize, heap_len: usize) -> usize {
    heap_len
        .max(LEAST_ROOM)
        .max(count.saturating_mul(ROOM_PER_USE))
}

/// The blob of each use.
pub fn slices_of<'w>(
    alloc: Global,
    bytes: &'w [BlobBytes<'_>],
    firsts: &[usize],
) -> Result<Vec<&'w [u8]>, AllocError>
    requires { AreWritten bytes.now firsts.now }
    ensures { IfOk result (λ slices. bytes_of slices.items ≡ all_bytes bytes.now firsts.now) }
{
    let mut slices = Vec::with_capacity(alloc, firsts.len())?;
    for first in firsts {
        slices.push(bytes[*first].as_slice())?;
    }
    Ok(slices)
}

/// Drops the bytes of each use that is not a first one.
fn drop_repeated(bytes: &mut [BlobBytes<'_>], firsts: &[usize])
    requires { length firsts.now ≡ length bytes.old }
    ensures len { length bytes.new ≡ length bytes.old }
    ensures kept { (k : ℕ) → slice_index firsts.now k ≡ k → bytes_at bytes.new k ≡ bytes_at bytes.old k }
{
    for use_index in 0..bytes.len() {
        if firsts[use_index] != use_index {
            bytes[use_index] = BlobBytes::Found(&[]);
        }
    }
}

/// Drops encodings that are equal to an earlier blob, if there is no room left.
///
/// # Errors
///
/// `Full` if the heap of these blobs would have more than 2^30 bytes, or `Memory` if out of memory.
fn merged<'u>(alloc: Global, written: WrittenBlobs<'u>) -> Result<WrittenBlobs<'u>, PoolError>
    requires written { AreWritten written.bytes.items written.firsts.items }
    requires short { All (λ blob. length blob < 2 ^ 29) (all_bytes written.bytes.items written.firsts.items) }
    ensures kept { IfOk result (λ after. AreWrittenAs after.bytes.items after.firsts.items (all_bytes written.entry.bytes.items written.entry.firsts.items)) }
    ensures full { result ≡ Err PoolError.Full → 2 ^ 30 < length (blob_heap (distinct (all_bytes written.entry.bytes.items written.entry.firsts.items))) }
{
    if written.room > 0 {
        return Ok(written);
    }
    let WrittenBlobs {
        mut bytes,
        firsts,
        ..
    } = written;
    let slices = slices_of(alloc, &bytes, &firsts)?;
    let sorted = SortedBlobs::sort_from(alloc, &slices, firsts)?;
    let room = room_for(bytes.len(), sorted.heap_len()?);
    let firsts = sorted.into_firsts();
    drop(slices);
    drop_repeated(&mut bytes, &firsts);
    Ok(WrittenBlobs {
        bytes,
        firsts,
        room,
    })
}

/// The first one of an earlier use, or this one if there is no earlier use.
fn first_of(firsts: &[usize], earlier: usize, own: usize) -> usize
    ensures own { length firsts.now ≤ earlier → result ≡ own }
    ensures earlier { earlier < length firsts.now → result ≡ slice_index firsts.now earlier }
{
    match firsts.get(earlier) {
        Some(first) => *first,
        None => own,
    }
}

/// The blobs with that of one more use. An earlier use index with its blob is given, or its own.
fn with_next<'u>(
    written: WrittenBlobs<'u>,
    next: BlobBytes<'u>,
    earlier: usize,
) -> Result<WrittenBlobs<'u>, AllocError>
    requires written { AreWritten written.bytes.items written.firsts.items }
    requires earlier { earlier < vec_len written.firsts
        → (used_at (all_bytes written.bytes.items written.firsts.items) earlier ≡ bytes_in next) × (0 < length (bytes_in next)) }
    ensures { IfOk result (λ after. AreWrittenAs after.bytes.items after.firsts.items
        (all_bytes written.entry.bytes.items written.entry.firsts.items ++ bytes_in next.entry ∷ [])) }
{
    let WrittenBlobs {
        mut bytes,
        mut firsts,
        room,
    } = written;
    let room = room.saturating_sub(next.encoded_len());
    let first = first_of(&firsts, earlier, bytes.len());
    firsts.push(first)?;
    bytes.push(next)?;
    Ok(WrittenBlobs {
        bytes,
        firsts,
        room,
    })
}

/// The blobs that are written for these uses. For each one an earlier one with its blob is given, or itself.
///
/// Their encodings take memory in proportion to the number of uses and to the heap of these blobs.
///
/// # Errors
///
/// Those of `merged`.
pub fn written_blobs<'u>(
    alloc: Global,
    uses: &'u [BlobUse<'_>],
    earlier: &[usize],
) -> Result<WrittenBlobs<'u>, PoolError>
    requires uses { ¬ (¬ ((blobs : List (List ℕ)) × AllZip IsUseOf uses.now blobs)) }
    requires len { length earlier.now ≡ length uses.now }
    requires earlier { AreEarlierUses uses.now earlier.now }
    ensures written { IfOk result (λ written. AreWritten written.bytes.items written.firsts.items) }
    ensures blobs { (blobs : List (List ℕ)) → AllZip IsUseOf uses.now blobs → IfOk result (λ written. all_bytes written.bytes.items written.firsts.items ≡ blobs) }
    ensures full { (blobs : List (List ℕ)) → AllZip IsUseOf uses.now blobs → result ≡ Err PoolError.Full
        → 2 ^ 30 < length (blob_heap (distinct blobs)) }
{
    heap_pools::laws::heaps_grow();
    let mut written = WrittenBlobs {
        bytes: Vec::with_capacity(alloc, uses.len())?,
        firsts: Vec::with_capacity(alloc, uses.len())?,
        room: room_for(uses.len(), 0),
    };
    for use_index in 0..uses.len() {
        let next = written_bytes(alloc, &uses[use_index])?;
        written = with_next(written, next, earlier[use_index])?;
        written = merged(alloc, written)?;
    }
    Ok(written)
}
