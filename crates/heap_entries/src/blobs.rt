ghost use Rattle.std.specs.Prelude.{◌≡◌, ℕ, List, IfOk, IsOkAnd, IfSome, IsSomeAnd};
ghost use Rattle.packed.specs.Rule.{Reports};
ghost use Rattle.heap_entries.specs.Rules.{at_offset, rules_of_blob};
ghost use Rattle.heap_entries.specs.Entries.{IsBlob, IsCounted};

use crate::fault::HeapFault;
use packed::read_unsigned;

/// The bytes after their packed length, which is at an offset.
fn counted_at(heap: &[u8], start: usize) -> Option<&[u8]>
    ensures sound { IfSome result (λ bytes. IsCounted heap.now start bytes.now) }
    ensures complete { (bytes : List ℕ) → IsCounted heap.now start bytes → IsSomeAnd result (λ found. found.now ≡ bytes) }
{
    if start > heap.len() {
        return None;
    }
    let (_, tail) = heap.split_at(start);
    let (len, used) = read_unsigned(tail)?;
    let (_, tail) = tail.split_at(used);
    if tail.len() < len as usize {
        return None;
    }
    let (bytes, _) = tail.split_at(len as usize);
    Some(bytes)
}

/// The blob at an index into `#Blob` (II.24.2.4). It borrows the bytes of the heap.
///
/// The index is an offset in bytes. Index 0 is the empty blob, even if the heap is absent and so has no bytes.
/// The length before a blob may use a longer form than it needs.
///
/// # Errors
///
/// `BadBlob` if there is no packed length at the index, or if fewer bytes than this length follow it.
pub fn blob(heap: &[u8], index: u32) -> Result<&[u8], HeapFault>
    // If it returns a blob, this is the blob at the index.
    ensures sound { IfOk result (λ blob. IsBlob heap.now index blob.now) }
    // If there is a blob at the index, it returns this blob. So there is no other.
    ensures complete { (blob : List ℕ) → IsBlob heap.now index blob → IsOkAnd result (λ found. found.now ≡ blob) }
    ensures reports { (offset : ℕ) → Reports (rules_of_blob heap.now index offset) (at_offset offset result) }
{
    if index == 0 {
        return Ok(&[]);
    }
    match counted_at(heap, index as usize) {
        Some(blob) => Ok(blob),
        None => Err(HeapFault::BadBlob),
    }
}
