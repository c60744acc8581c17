//! What a comparison remembers of the cells that it has compared.
ghost use Rattle.std.specs.Prelude.{◌≡◌, ◌<◌, ◌+◌, ℕ, List, true, IfSome, OnOk};
ghost use Rattle.table_schema.specs.declared.table.TableId.{TableId as Table};
ghost use Rattle.comparison.specs.ComparedCells.{AreOutcomes, HasBlobNames, IsNoted, IsOutcome};

use crate::blob_names::BlobNames;
use std::alloc::{AllocError, Global};
use std::collections::BTreeMap;
use table_schema::TableId;

/// A cell of two views.
#[derive(Clone, Copy)]
pub(crate) struct CellId {
    /// The table.
    pub table: TableId,
    /// The row, counted from 1.
    pub row: u32,
    /// The index of the cell in the row, counted from 0.
    pub index: usize,
}

/// Whether cells of a column are equal: those with two numbers in the two roots, and those with the next numbers in both.
#[derive(Clone, Copy)]
pub(crate) struct Outcome {
    /// The index of the cells in their rows.
    pub cell_index: usize,
    /// The first number in the left root.
    pub left: u32,
    /// The first number in the right root.
    pub right: u32,
    /// The number of numbers in each root.
    pub count: u32,
    /// Whether the cells are equal.
    pub same: bool,
}

impl Outcome {
    /// Whether it was noted of the cells with two numbers.
    fn is_of(&self, cell_index: usize, left: u32, right: u32) -> bool
        ensures { result ≡ true → (cell_index ≡ self.now.cell_index)
            × ((k : ℕ) × (k < self.now.count) × (left ≡ self.now.left + k) × (right ≡ self.now.right + k)) }
    {
        if cell_index != self.cell_index || left < self.left || right < self.right {
            return false;
        }
        let further = left - self.left;
        if further != right - self.right || further >= self.count {
            return false;
        }
        true
    }
}

/// The order of what is noted: by column, by the difference of the numbers, and by the left number. So what is noted of
/// numbers follows at once after the last that can be of them.
fn key_of(cell_index: usize, left: u32, right: u32) -> (usize, u32, u32) {
    (cell_index, right.wrapping_sub(left), left)
}

/// Whether cells of a table are equal, by the index of the cell in its row and the numbers of its column in the two roots.
/// So the value that many rows name is compared once. Blobs are also known to be equal by their windows, in all tables.
#[derive(Drop)]
pub(crate) struct ComparedCells {
    outcomes: BTreeMap<(usize, u32, u32), Outcome>,
    /// The names of the windows of both blob heaps.
    pub blobs: BlobNames,
}

impl ComparedCells {
    /// No cells yet. The call does not allocate.
    pub(crate) fn new(alloc: Global) -> ComparedCells
        ensures { (left right : List ℕ) → HasBlobNames left right result }
    {
        ComparedCells {
            outcomes: BTreeMap::new(alloc),
            blobs: BlobNames::new(alloc),
        }
    }

    /// Forgets the cells of the table before. The names of windows are kept.
    pub(crate) fn begin_table(&mut self, alloc: Global)
        ensures { (left right : List ℕ) (table : Table) → HasBlobNames left right self.old → AreOutcomes left right table self.new }
    {
        self.outcomes = BTreeMap::new(alloc);
    }

    /// Whether nothing was noted and no window is named.
    pub(crate) fn is_empty(&self) -> bool {
        self.outcomes.is_empty() && self.blobs.windows.names.is_empty()
    }

    /// Whether the cells with these numbers are equal; `None` if that was not noted.
    pub(crate) fn known(&self, cell_index: usize, left: u32, right: u32) -> Option<bool>
        ensures { (first second : List ℕ) (table : Table) → AreOutcomes first second table self.now
            → IfSome result (IsOutcome first second table cell_index left right) }
    {
        let key = key_of(cell_index, left, right);
        let (_, noted) = self.outcomes.range(..=key).next_back()?;
        if noted.is_of(cell_index, left, right) {
            Some(noted.same)
        } else {
            None
        }
    }

    /// Notes whether cells are equal.
    pub(crate) fn note(&mut self, noted: Outcome) -> Result<(), AllocError>
        ensures { (first second : List ℕ) (table : Table) → AreOutcomes first second table self.old → IsNoted first second table noted
            → OnOk result (AreOutcomes first second table self.new) }
    {
        let key = key_of(noted.cell_index, noted.left, noted.right);
        self.outcomes.insert(key, noted)?;
        Ok(())
    }
}
