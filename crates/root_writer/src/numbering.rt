ghost use Rattle.std.specs.Prelude.{◌≡◌, ◌^◌, ◌≤◌, length};

use heaps::HeapPlan;
use std::marker::Model;

/// The numbers of cells, one per column, and the planned heaps of their blobs and GUIDs (II.24.2.4 to II.24.2.6).
#[derive(Drop)]
pub struct Numbering {
    blobs: HeapPlan,
    guids: HeapPlan,
    numbers: Vec<u32>,
}

impl Model for Numbering {
    ghost use Rattle.root_writer.specs.Numbered.{Numbered};

    ghost Value = { Numbered };

    ghost view = { λ n. record { blobs = n.blobs.heap; guids = n.guids.heap; numbers = n.numbers.items } };
}

impl Numbering {
    /// The numbering with these heaps and numbers. It does not allocate.
    pub fn new(blobs: HeapPlan, guids: HeapPlan, numbers: Vec<u32>) -> Numbering
        ensures blobs { result.blobs ≡ blobs.heap }
        ensures guids { result.guids ≡ guids.heap }
        ensures numbers { result.numbers ≡ numbers.items }
    {
        Numbering {
            blobs,
            guids,
            numbers,
        }
    }

    /// The numbers, one per column.
    pub fn numbers(&self) -> &[u32]
        ensures { result.now ≡ self.now.numbers }
    {
        &self.numbers
    }

    /// The blob heap, without padding.
    pub fn blobs(&self) -> &[u8]
        ensures heap { result.now ≡ self.now.blobs }
        ensures fits { length result.now ≤ 2 ^ 30 }
    {
        self.blobs.bytes()
    }

    /// The GUID heap, without padding.
    pub fn guids(&self) -> &[u8]
        ensures heap { result.now ≡ self.now.guids }
        ensures fits { length result.now ≤ 2 ^ 30 }
    {
        self.guids.bytes()
    }
}
