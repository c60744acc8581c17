ghost use Rattle.std.specs.Prelude.{◌≡◌, OnOk, IfOk, slice_index};
ghost use Rattle.cell_numbering.specs.NumbersSoFar.{none_numbered, with_blob, with_guid, with_number, with_text};

use std::alloc::{AllocError, Global};
use std::marker::Model;

/// The indexes of values in the planned heaps, each list in order of use.
#[derive(Clone, Copy)]
pub struct Indexes<'i> {
    /// The indexes of the texts.
    pub texts: &'i [u32],
    /// The indexes of the GUIDs.
    pub guids: &'i [u32],
    /// The indexes of the blobs, with those of signatures.
    pub blobs: &'i [u32],
}

/// The numbers of cells so far, one per column, and how many of them are of texts, of GUIDs and of blobs.
#[derive(Drop)]
pub struct NumbersSoFar {
    numbers: Vec<u32>,
    texts: usize,
    guids: usize,
    blobs: usize,
}

impl Model for NumbersSoFar {
    ghost use Rattle.cell_numbering.specs.NumbersSoFar.{SoFar, so_far_of, AreCounted};

    ghost Value = { SoFar };

    ghost view = { so_far_of };

    ghost invariant = { AreCounted };
}

/// The index of a use; 0 if there are too few.
fn index_of(indexes: &[u32], use_index: usize) -> u32
    ensures { result ≡ slice_index indexes.now use_index }
{
    indexes.get(use_index).copied().unwrap_or(0)
}

impl NumbersSoFar {
    /// No numbers, with memory for the given number of them.
    pub fn new(alloc: Global, count: usize) -> Result<NumbersSoFar, AllocError>
        ensures { IfOk result (λ so_far. so_far ≡ none_numbered) }
    {
        let numbers = Vec::with_capacity(alloc, count)?;
        Ok(NumbersSoFar {
            numbers,
            texts: 0,
            guids: 0,
            blobs: 0,
        })
    }

    /// Adds the number of the next column.
    pub fn put_number(&mut self, number: u32) -> Result<(), AllocError>
        ensures { OnOk result (self.new ≡ with_number self.old number) }
    {
        Ok(self.numbers.push(number)?)
    }

    /// Adds the number of the next text: the next of the indexes of all texts.
    pub fn put_text(&mut self, indexes: &[u32]) -> Result<(), AllocError>
        ensures { OnOk result (self.new ≡ with_text indexes.now self.old) }
    {
        self.numbers.push(index_of(indexes, self.texts))?;
        self.texts += 1;
        Ok(())
    }

    /// Adds the number of the next GUID: the next of the indexes of all GUIDs.
    pub fn put_guid(&mut self, indexes: &[u32]) -> Result<(), AllocError>
        ensures { OnOk result (self.new ≡ with_guid indexes.now self.old) }
    {
        self.numbers.push(index_of(indexes, self.guids))?;
        self.guids += 1;
        Ok(())
    }

    /// Adds the number of the next blob: the next of the indexes of all blobs.
    pub fn put_blob(&mut self, indexes: &[u32]) -> Result<(), AllocError>
        ensures { OnOk result (self.new ≡ with_blob indexes.now self.old) }
    {
        self.numbers.push(index_of(indexes, self.blobs))?;
        self.blobs += 1;
        Ok(())
    }

    /// The numbers.
    pub fn into_numbers(self) -> Vec<u32>
        ensures { result.items ≡ self.numbers }
    {
        self.numbers
    }
}
