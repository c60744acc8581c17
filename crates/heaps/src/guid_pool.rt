ghost use Rattle.std.specs.Prelude.{◌≡◌, ◌<◌, ◌≤◌, ◌^◌, All, ◌↔◌, [], Err, length, IfOk, OnErr, IsOk, IsTrue};
ghost use Rattle.heap_pools.specs.Distinct.{pooled};
ghost use Rattle.heap_pools.specs.GuidHeap.{guid_heap, guid_index, pooled_guid};

use heap_pools::{HEAP_LIMIT, PoolError};
use indexmap::IndexSet;
use std::alloc::Global;
use std::marker::Model;

/// The largest number of entries of a GUID heap.
const MOST_GUIDS: usize = HEAP_LIMIT / 16;

/// The GUIDs of a heap that is written, each once, in the order of first use (II.24.2.5).
#[derive(Drop)]
pub struct GuidPool {
    guids: IndexSet<[u8; 16]>,
}

impl Model for GuidPool {
    ghost use Rattle.std.specs.Prelude.{List, ℕ};

    ghost Value = { List (List ℕ) };

    ghost use Rattle.heaps.specs.GuidPoolView.{guids_of, IsGuidPool};

    ghost view = { guids_of };

    ghost invariant = { IsGuidPool };
}

/// Whether a GUID is new and the heap has no room for it.
fn is_full(guids: &IndexSet<[u8; 16]>, guid: &[u8; 16]) -> bool
    requires sixteen { All (λ guid. length guid ≡ 16) guids.now.keys }
    requires fits { length guids.now.keys ≤ 2 ^ 26 }
    ensures full { IsTrue result ↔ (2 ^ 30 < length (guid_heap (pooled guids.now.keys guid.now))) }
    ensures long { length guid.now ≡ 16 }
{
    guids.len() == MOST_GUIDS && !guids.contains(guid)
}

impl GuidPool {
    /// A pool without entries. The call does not allocate.
    pub fn new(alloc: Global) -> GuidPool
        ensures { result ≡ [] }
    {
        GuidPool {
            guids: IndexSet::new(alloc),
        }
    }

    /// Adds a GUID. Returns its index, which counts entries from 1 (II.24.2.5). Null has index 0 and no entry.
    ///
    /// # Errors
    ///
    /// `Full` if the heap would have more than 2^30 bytes, which is checked before it allocates. `Memory` if it is out
    /// of memory for a new entry; a GUID that is already there needs none. The pool is then unchanged.
    pub fn add(&mut self, guid: Option<[u8; 16]>) -> Result<u32, PoolError>
        ensures entries { IfOk result (λ _. self.new ≡ pooled_guid self.old guid) }
        ensures index { IfOk result (λ index. index ≡ guid_index self.new guid) }
        ensures err { OnErr result (self.new ≡ self.old) }

        // Null and a GUID that is already there never fail.
        ensures known { pooled_guid self.old guid ≡ self.old → IsOk result }
        ensures full { (result ≡ Err PoolError.Full) ↔ (2 ^ 30 < length (guid_heap (pooled_guid self.old guid))) }
    {
        let guids = &mut self.guids;
        let Some(guid) = guid else {
            return Ok(0);
        };
        if is_full(guids, &guid) {
            return Err(PoolError::Full);
        }
        let (index, _) = guids.insert_full(guid)?;
        Ok(index as u32 + 1)
    }

    /// The heap without padding: the entries one after another.
    pub fn bytes(&self) -> &[u8]
        ensures heap { result.now ≡ guid_heap self.now }
        ensures fits { length result.now ≤ 2 ^ 30 }
    {
        self.guids.as_slice().as_flattened()
    }
}
