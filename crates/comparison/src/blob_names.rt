//! Equal blobs of two heaps, which are found without comparing all of their bytes (II.24.2.4).
ghost use Rattle.std.specs.Prelude.{◌≡◌, ◌≤◌, ◌<◌, ◌+◌, ◌^◌, ◌++◌, ℕ, List, IfOk, IfSome, IsTrue, OnOk, length};
ghost use Rattle.heap_entries.specs.Entries.{IsCounted};
ghost use Rattle.heaps.specs.Windows.{AreNames};
ghost use Rattle.table_schema.specs.Columns.{columns_of};
ghost use Rattle.comparison.specs.BlobNames.{AreBlobNames, AreSameBlobs};

use heaps::WindowNames;
use opening::{Source, TableId};
use packed::read_unsigned;
use reading::column_at;
use std::alloc::{AllocError, Global};
use table_schema::{ColumnKind, columns};

/// Windows are named once this number of times the bytes of both heaps were compared. To compare fewer takes less time.
const LEAST_COMPARED: usize = 64;

/// Windows get wider while there are more than this number of them for each byte of the heaps, since a step takes less time
/// than to name windows of twice the width for this part of a byte.
const MOST_STEPS: usize = 16;

/// Windows get no wider if a blob of mean length has at most this number of them. One shorter than a window is compared byte
/// by byte.
const MOST_WINDOWS: usize = 64;

/// The least width of windows. To double them up to it takes less time than the steps of narrower ones.
const LEAST_WIDTH: usize = 64;

/// Names of the windows of two blob heaps that are joined, the left one first. Blobs whose windows have the same names are
/// equal.
#[derive(Drop)]
pub(crate) struct BlobNames {
    /// Empty until windows are named.
    pub windows: WindowNames,
    /// The number of bytes of blobs that were compared and are equal.
    equal_bytes: usize,
}

/// Where the blob at an index that is not 0 begins, after its packed length, and the number of its bytes.
fn span_of(heap: &[u8], index: u32) -> Option<(usize, usize)>
    ensures within { IfSome result (λ span. (0 < index) × (span.0 ≤ length heap.now)) }
    ensures at { IfSome result (λ span. (blob : List ℕ) (counted : IsCounted heap.now index blob) → (span.0 ≡ index + length counted.count) × (span.1 ≡ length blob)) }
{
    if index == 0 || index as usize > heap.len() {
        return None;
    }
    let (_, tail) = heap.split_at(index as usize);
    let (len, used) = read_unsigned(tail)?;
    Some((index as usize + used, len as usize))
}

impl BlobNames {
    /// No names. The call does not allocate.
    pub(crate) fn new(alloc: Global) -> BlobNames
        ensures { (heap : List ℕ) → AreBlobNames heap result }
    {
        BlobNames {
            windows: WindowNames::new(alloc),
            equal_bytes: 0,
        }
    }

    /// Whether the blobs of two heaps at two indexes are equal, as far as their windows show.
    pub(crate) fn are_equal(&self, left: &[u8], right: &[u8], indexes: (u32, u32)) -> bool
        requires { AreBlobNames (left.now ++ right.now) self.now }
        ensures { IsTrue result → AreSameBlobs left.now right.now indexes.0 indexes.1 }
    {
        let Some((left_start, left_len)) = span_of(left, indexes.0) else {
            return false;
        };
        let Some((right_start, right_len)) = span_of(right, indexes.1) else {
            return false;
        };
        if left_len != right_len {
            return false;
        }
        let start = left.len() + right_start;
        self.windows.are_same(left_start, start, left_len)
    }

    /// Counts the bytes of a blob that was compared and is equal. If many were, the windows of both heaps are named, once.
    pub(crate) fn count_compared(
        &mut self,
        alloc: Global,
        left: &Source<'_>,
        right: &Source<'_>,
        len: usize,
    ) -> Result<(), AllocError>
        requires { AreBlobNames (left.now.source.blobs ++ right.now.source.blobs) self.old }
        ensures { OnOk result (AreBlobNames (left.now.source.blobs ++ right.now.source.blobs) self.new) }
    {
        self.equal_bytes = self.equal_bytes.saturating_add(len);
        let heap_len = left.blobs().len().saturating_add(right.blobs().len());
        let is_enough = self.equal_bytes / LEAST_COMPARED > heap_len;
        if !is_enough || !self.windows.names.is_empty() || heap_len > u32::MAX as usize {
            return Ok(());
        }
        self.windows = names_of(alloc, left, right)?;
        Ok(())
    }
}

/// The names of the windows of the heaps of two roots.
fn names_of(alloc: Global, left: &Source<'_>, right: &Source<'_>) -> Result<WindowNames, AllocError>
    requires { length left.now.source.blobs + length right.now.source.blobs < 2 ^ 32 }
    ensures { IfOk result (λ named. AreNames (left.now.source.blobs ++ right.now.source.blobs) named.width named.names.items) }
{
    let mut blobs = Blobs { count: 0, len: 0 };
    add_blobs(&mut blobs, left);
    add_blobs(&mut blobs, right);
    let mut heap = Vec::from_slice(alloc, left.blobs())?;
    heap.extend_from_slice(right.blobs())?;
    WindowNames::of_heap(alloc, &heap, blobs.width_in(heap.len()))
}

/// The blobs that rows refer to, and the number of their bytes.
#[derive(Clone, Copy)]
struct Blobs {
    count: usize,
    len: usize,
}

impl Blobs {
    /// The least width of windows, from `LEAST_WIDTH`, by which all are compared in a few steps for each byte of a heap, or for
    /// each blob.
    fn width_in(self, heap_len: usize) -> u32
        ensures { result ≤ 2 ^ 31 }
    {
        let steps = self.len / heap_len.max(1) / MOST_STEPS;
        let windows = self.len / self.count.max(1) / MOST_WINDOWS;
        steps.min(windows).max(LEAST_WIDTH).min(1 << 31) as u32
    }
}

/// Adds the blobs of a root.
fn add_blobs(blobs: &mut Blobs, source: &Source<'_>) {
    for table in TableId::all() {
        add_table(blobs, source, *table);
    }
}

/// Adds the blobs of a table.
fn add_table(blobs: &mut Blobs, source: &Source<'_>, table: TableId) {
    for column in 0..columns(table).len() {
        if let ColumnKind::Blob = column_at(table, column).kind {
            add_column(blobs, source, table, column);
        }
    }
}

/// Adds the blobs of a column.
fn add_column(blobs: &mut Blobs, source: &Source<'_>, table: TableId, column: usize)
    requires { column < length (columns_of table) }
{
    for earlier in 0..source.count(table) {
        let index = source.number(table, earlier + 1, column);
        if let Some((_, len)) = span_of(source.blobs(), index) {
            blobs.count = blobs.count.saturating_add(1);
            blobs.len = blobs.len.saturating_add(len);
        }
    }
}
