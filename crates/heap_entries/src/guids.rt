ghost use Rattle.std.specs.Prelude.{◌≡◌, ℕ, List, Option, IfOk, IsOkAnd};
ghost use Rattle.packed.specs.Rule.{Reports};
ghost use Rattle.heap_entries.specs.Rules.{at_offset, rules_of_guid};
ghost use Rattle.heap_entries.specs.Entries.{IsGuid};

use crate::fault::HeapFault;

/// The number of bytes of a GUID.
const GUID_LEN: usize = 16;

/// The GUID at an index into `#GUID` (II.24.2.5). Index 0 is null.
///
/// The index counts entries of sixteen bytes from 1. Fewer than sixteen bytes at the end of the heap
/// are not an entry. Sixteen zero bytes are a GUID, not null.
///
/// # Errors
///
/// `BadGuid` if there is no such entry.
pub fn guid(heap: &[u8], index: u32) -> Result<Option<[u8; 16]>, HeapFault>
    // If it returns a GUID, this is the GUID at the index.
    ensures sound { IfOk result (λ guid. IsGuid heap.now index guid) }
    // If there is a GUID at the index, it returns this GUID. So there is no other.
    ensures complete { (guid : Option (List ℕ)) → IsGuid heap.now index guid → IsOkAnd result (λ found. found ≡ guid) }
    ensures reports { (offset : ℕ) → Reports (rules_of_guid heap.now index offset) (at_offset offset result) }
{
    let Some(earlier) = index.checked_sub(1) else {
        return Ok(None);
    };
    let start = GUID_LEN * earlier as usize;
    if start > heap.len() {
        return Err(HeapFault::BadGuid);
    }
    let (_, tail) = heap.split_at(start);
    match tail.first_chunk::<GUID_LEN>() {
        Some(guid) => Ok(Some(*guid)),
        None => Err(HeapFault::BadGuid),
    }
}
