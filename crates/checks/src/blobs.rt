ghost use Rattle.std.specs.Prelude.{◌≡◌, ◌<◌, ◌↔◌, ℕ, List, IsTrue, length, slice_index};
ghost use Rattle.heap_entries.specs.Entries.{IsBlob};

use heap_entries::blob;
use std::marker::Model;

/// The greatest number of bytes of a blob whose packed length takes one byte (II.23.2).
const SHORT: usize = 127;

/// The blobs of a `#Blob` heap (II.24.2.4).
///
/// If at least 127 bytes follow a byte below 128, a blob begins at that byte: it is the blob's length.
#[derive(Drop)]
pub struct Blobs<'a> {
    heap: &'a [u8],
    /// The bytes of the heap that at least 127 others follow.
    near: &'a [u8],
}

impl<'a> Model for Blobs<'a> {
    ghost use Rattle.std.specs.Prelude.{List, ℕ};

    ghost Value = { List ℕ };

    ghost use Rattle.checks.specs.Blobs.{heap_of, IsNear};

    ghost view = { heap_of };

    ghost invariant = { IsNear };
}

impl<'a> Blobs<'a> {
    /// The blobs of a heap. The heap is not read.
    pub fn new(heap: &'a [u8]) -> Blobs<'a>
        ensures { result ≡ heap.now }
    {
        let (near, _) = heap.split_at(heap.len().saturating_sub(SHORT));
        Blobs { heap, near }
    }

    /// Whether a blob is at an index of the heap (II.24.2.4).
    #[inline]
    pub fn has(&self, index: u32) -> bool
        ensures { IsTrue result ↔ ((blob : List ℕ) × IsBlob self.now index blob) }
    {
        has_low_byte(self.near, index as usize) || has_blob(self.heap, index)
    }
}

/// Whether a byte below 128 is at an offset.
#[inline]
fn has_low_byte(bytes: &[u8], offset: usize) -> bool
    ensures within { IsTrue result → offset < length bytes.now }
    ensures low { IsTrue result → slice_index bytes.now offset < 128 }
{
    offset < bytes.len() && bytes[offset] < 128
}

/// Whether a blob is at an index of a heap, by its packed length. It is rarely called, so it is kept out of the loops.
#[cold]
#[inline(never)]
fn has_blob(heap: &[u8], index: u32) -> bool
    ensures { IsTrue result ↔ ((blob : List ℕ) × IsBlob heap.now index blob) }
{
    match blob(heap, index) {
        Ok(_) => true,
        Err(_) => false,
    }
}
