ghost use Rattle.std.specs.Prelude.{◌≡◌, ◌<◌, ◌^◌, ◌≤◌, ℕ, List, length};
ghost use Rattle.heap_entries.specs.Padding.{zero_padded};
ghost use Rattle.heap_pools.specs.TextHeap.{text_heap};
ghost use Rattle.metadata.specs.Metadata.{Metadata};
ghost use Rattle.root_writer.specs.TableStream.{wide_bit as bit_of_heap, sizes_of};
ghost use Rattle.writer.specs.Planned.{AreHeapLens};

use crate::stream_lens::padded_len;
use heap_pools::TextPool;
use root_writer::Numbering;

/// The lengths of the heap streams in bytes, padded to a multiple of four.
#[derive(Clone, Copy)]
pub struct HeapLens {
    /// `#Strings`.
    pub strings: u32,
    /// `#GUID`.
    pub guids: u32,
    /// `#Blob`.
    pub blobs: u32,
}

/// The bit of a heap in HeapSizes: set if its stream is so long that its indexes have four bytes (II.24.2.6).
fn wide_bit(len: u32, bit: u8) -> u8
    ensures value { (stream : List ℕ) → len ≡ length stream → result ≡ bit_of_heap stream bit }
    ensures limit { result ≤ bit }
{
    if len >= 1 << 16 { bit } else { 0 }
}

impl HeapLens {
    /// The lengths for these pools.
    pub fn of(texts: &TextPool, numbering: &Numbering) -> HeapLens
        ensures strings { result.strings ≡ length (zero_padded (text_heap texts.now.entries)) }
        ensures guids { result.guids ≡ length (zero_padded numbering.now.guids) }
        ensures blobs { result.blobs ≡ length (zero_padded numbering.now.blobs) }
        ensures few { (result.strings ≤ 2 ^ 30) × (result.guids ≤ 2 ^ 30) × (result.blobs ≤ 2 ^ 30) }
    {
        HeapLens {
            strings: padded_len(texts.bytes().len()),
            guids: padded_len(numbering.guids().len()),
            blobs: padded_len(numbering.blobs().len()),
        }
    }

    /// HeapSizes (II.24.2.6).
    #[tactic(auto, unfolding(root_writer::specs::TableStream::sizes_of))]
    pub fn heap_sizes(&self) -> u8
        ensures value { (model : Metadata) → AreHeapLens model self.now → result ≡ (sizes_of model).heap_sizes }
        ensures low { result < 8 }
    {
        wide_bit(self.strings, 1) + wide_bit(self.guids, 2) + wide_bit(self.blobs, 4)
    }
}
