ghost use Rattle.std.specs.Prelude.{◌≡◌, ◌<◌, ◌≤◌, ◌+◌, ◌^◌, ◌++◌, ◌∷◌, ◌↔◌, true, false, [], Err, length, vec_len, take, IfSome, IfNone, IfOk, OnOk, OnErr, IsOk};
ghost use Rattle.heap_pools.specs.BlobHeap.{blob_from, blob_heap, blob_index, counted};
ghost use Rattle.heap_pools.specs.Distinct.{is_among, pooled};
ghost use Rattle.heaps.specs.FirstByte.{begun};

use crate::first_byte::begin;
use heap_pools::{HEAP_LIMIT, PoolError};
use indexmap::IndexMap;
use packed::{put_unsigned, unsigned_len};
use std::alloc::{AllocError, Global};
use std::marker::Model;

/// The blobs of a heap that is written, each once, in the order of first use (II.24.2.4).
#[derive(Drop)]
pub struct BlobPool {
    alloc: Global,
    heap: Vec<u8>,
    indexes: IndexMap<Vec<u8>, u32>,
}

impl Model for BlobPool {
    ghost use Rattle.std.specs.Prelude.{List, ℕ};

    ghost Value = { List (List ℕ) };

    ghost use Rattle.heaps.specs.BlobPoolView.{blobs_of, IsBlobPool};

    ghost view = { blobs_of };

    ghost invariant = { IsBlobPool };
}

/// Appends the entry of a blob (II.24.2.4). Before the first one it appends the first byte of the heap.
///
/// # Errors
///
/// Only if out of memory. Then the heap may have a part of the entry.
#[tactic(auto, unfolding(heap_pools::specs::BlobHeap::counted))]
pub fn write_blob(heap: &mut Vec<u8>, blob: &[u8]) -> Result<(), AllocError>
    requires { length blob.now < 2 ^ 29 }
    ensures ok { OnOk result (heap.new.items ≡ begun heap.old.items ++ counted blob.now) }
    ensures err { OnErr result (take (vec_len heap.old) heap.new.items ≡ heap.old.items) }
{
    begin(heap)?;
    put_unsigned(heap, blob.len() as u32)?;
    heap.extend_from_slice(blob)
}

/// Appends the entry of a blob like `write_blob`. If this fails, the heap is unchanged.
fn append_blob(heap: &mut Vec<u8>, blob: &[u8]) -> Result<(), AllocError>
    requires { length blob.now < 2 ^ 29 }
    ensures ok { OnOk result (heap.new.items ≡ begun heap.old.items ++ counted blob.now) }
    ensures err { OnErr result (heap.new.items ≡ heap.old.items) }
{
    let len = heap.len();
    let written = write_blob(heap, blob);
    if written.is_err() {
        heap.truncate(len);
    }
    written
}

impl BlobPool {
    /// A pool without entries. The call does not allocate.
    pub fn new(alloc: Global) -> BlobPool
        ensures { result ≡ [] }
    {
        BlobPool {
            alloc,
            heap: Vec::new(alloc),
            indexes: IndexMap::new(alloc),
        }
    }

    /// Adds a blob of at most 2^29 - 1 bytes. Returns its index, an offset in bytes (II.24.2.4). The empty blob
    /// has index 0 and no entry.
    ///
    /// # Errors
    ///
    /// `Full` if the heap would have more than 2^30 bytes, which is checked before it allocates. `Memory` if it is out
    /// of memory for a new entry; a blob that is already there needs none. The pool is then unchanged.
    pub fn add(&mut self, blob: &[u8]) -> Result<u32, PoolError>
        requires { length blob.now < 2 ^ 29 }
        ensures entries { OnOk result (self.new ≡ pooled self.old blob.now) }
        ensures index { IfOk result (λ index. index ≡ blob_index self.new blob.now) }
        ensures err { OnErr result (self.new ≡ self.old) }

        // The empty blob and a blob that is already there never fail.
        ensures known { pooled self.old blob.now ≡ self.old → IsOk result }
        ensures full { (result ≡ Err PoolError.Full) ↔ (2 ^ 30 < length (blob_heap (pooled self.old blob.now))) }
    {
        let len = self.bytes().len();
        if blob.is_empty() {
            return Ok(0);
        }
        if let Some(index) = self.find(blob) {
            return Ok(index);
        }
        let start = len.max(1);
        if HEAP_LIMIT - start < unsigned_len(blob.len() as u32) + blob.len() {
            return Err(PoolError::Full);
        }
        self.insert(blob, start as u32)?;
        Ok(start as u32)
    }

    /// The index of a blob that is already in the pool.
    fn find(&self, blob: &[u8]) -> Option<u32>
        ensures sound { IfSome result (λ index. (is_among self.now blob.now ≡ true) × (index ≡ blob_from 1 self.now blob.now)) }
        ensures none { IfNone result (is_among self.now blob.now ≡ false) }
    {
        self.indexes.get(blob).copied()
    }

    /// Appends the entry of a new blob at the end of the heap.
    fn insert(&mut self, blob: &[u8], start: u32) -> Result<(), AllocError>
        requires short { length blob.now < 2 ^ 29 }
        requires new { is_among self.old blob.now ≡ false }
        requires start { start ≡ length (begun (blob_heap self.old)) }
        requires fits { start + length (counted blob.now) ≤ 2 ^ 30 }
        ensures ok { OnOk result (self.new ≡ self.old ++ blob.now ∷ []) }
        ensures err { OnErr result (self.new ≡ self.old) }
    {
        let key = Vec::from_slice(self.alloc, blob)?;
        self.indexes.reserve(1)?;
        append_blob(&mut self.heap, blob)?;
        let _ = self.indexes.insert(key, start);
        Ok(())
    }

    /// The heap without padding: a zero byte, then the entries, each after its length. It has no bytes if
    /// there are no entries.
    pub fn bytes(&self) -> &[u8]
        ensures heap { result.now ≡ blob_heap self.now }
        ensures fits { length result.now ≤ 2 ^ 30 }
    {
        &self.heap
    }
}
