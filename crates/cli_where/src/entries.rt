//! The heap entries that have a byte (II.24.2.3 to II.24.2.5), by the cells that refer to them.
ghost use Rattle.std.specs.Prelude.{◌≡◌, ◌≤◌, ◌<◌, ◌+◌, ℕ, List, [], IfSome, IfNone, IsSomeAnd, length, true, ◌∷◌};
ghost use Rattle.cli_where.specs.Words.{IsCounted, has_byte, columns_of, count_of, Finds};
ghost use Rattle.cli_where.specs.Entries.{IsBlobAt, IsGuidAt, IsNamed, IsStringAt, heap_at, heap_named, AreEntriesAt};
ghost use Rattle.cli_where.specs.Kept.{AreReady, IsLow, IsRunAt, IsRunOf, heap_of, heaps_of, FindsFirst};

use cli_found::kind_of;
use cli_regions::{Search, Structure, What, has_byte};
use memchr::{memchr, memrchr};
use packed::read_unsigned;
use root::{Kind, Root};
use rows::Rows;
use schema::TableCell;
use table_schema::{ColumnKind, TableId, columns};

/// The number of bytes of a GUID.
const GUID_SIZE: u64 = 16;

/// A heap.
#[derive(Clone, Copy)]
pub(crate) struct Heap<'a> {
    /// Its bytes.
    pub bytes: &'a [u8],
    /// The offset of the first one in the file.
    pub start: u64,
}

/// A byte, and the heaps that may have it.
#[derive(Clone, Copy)]
pub(crate) struct Target<'a> {
    /// The offset of the byte in the file.
    pub offset: u64,
    /// `#Strings`.
    pub texts: Heap<'a>,
    /// The run of the byte, if it is one of `#Strings`: the offsets of its first byte and of its NUL in the heap.
    pub run: Option<(usize, usize)>,
    /// `#GUID`.
    pub guids: Heap<'a>,
    /// `#Blob`.
    pub blobs: Heap<'a>,
}

/// A stream of a root that is at offset `start` of the file. It has no bytes if no header refers to it.
pub(crate) fn heap_in<'a>(root: &Root<'a>, kind: Kind, start: u64) -> Heap<'a>
    requires small { length root.now.bytes ≤ 0x40000000 }
    requires start { start ≤ 0x40000000 }
    ensures heap { heap_of result ≡ heap_at start root.now kind }
    ensures low { IsLow result }
{
    let bytes = root.stream(kind).unwrap_or(&[]);
    let before = root.stream_place(kind).map_or(0, |range| range.start);
    let start = start + before as u64;
    Heap { bytes, start }
}

/// The run of a byte of `#Strings`: the bytes around it up to a NUL, of which only the last one is a NUL. It is the offsets of the
/// first byte and of the NUL; `None` if no NUL is at the byte or after it.
fn run_at(heap: &[u8], byte: usize) -> Option<(usize, usize)>
    requires { byte < length heap.now }
    ensures { IsRunAt heap.now byte result }
{
    let (before, tail) = heap.split_at(byte);
    let first = match memrchr(0, before) {
        Some(last) => last + 1,
        None => 0,
    };
    let len = memchr(0, tail)?;
    Some((first, byte + len))
}

/// The run of the byte at an offset of the file, if it is one of `#Strings`.
pub(crate) fn run_of(texts: Heap<'_>, offset: u64) -> Option<(usize, usize)>
    requires { IsLow texts }
    ensures { IsRunOf (heap_of texts.entry) offset result }
{
    let byte = offset.checked_sub(texts.start)?;
    if byte >= texts.bytes.len() as u64 {
        return None;
    }
    run_at(texts.bytes, byte as usize)
}

/// The offset and the size of the string at an index if it has the byte.
fn string_at(target: &Target<'_>, index: u32) -> Option<(u64, u64)>
    requires { AreReady target.now }
    ensures sound { IfSome result (λ span. IsStringAt (heap_of target.now.texts) index span.0 span.1 × (has_byte span.0 span.1 target.now.offset ≡ true)) }
    ensures none { IfNone result ((start size : ℕ) → IsStringAt (heap_of target.now.texts) index start size → has_byte start size target.now.offset ≡ true → ⊥) }
{
    let (first, nul) = target.run?;
    let start = target.texts.start + u64::from(index);
    if index == 0 || (index as usize) < first || target.offset < start {
        return None;
    }
    Some((start, (nul - index as usize) as u64 + 1))
}

/// The offset and the size of the GUID with an index if it has the byte.
fn guid_at(target: &Target<'_>, index: u32) -> Option<(u64, u64)>
    requires { AreReady target.now }
    ensures sound { IfSome result (λ span. IsGuidAt (heap_of target.now.guids) index span.0 span.1 × (has_byte span.0 span.1 target.now.offset ≡ true)) }
    ensures none { IfNone result ((start size : ℕ) → IsGuidAt (heap_of target.now.guids) index start size → has_byte start size target.now.offset ≡ true → ⊥) }
{
    let before = GUID_SIZE * u64::from(index.checked_sub(1)?);
    let start = target.guids.start + before;
    if before + GUID_SIZE > target.guids.bytes.len() as u64
        || !has_byte(start, GUID_SIZE, target.offset)
    {
        return None;
    }
    Some((start, GUID_SIZE))
}

/// The number of bytes of the blob at an offset of its heap, those of its packed length included.
pub(crate) fn blob_size(heap: &[u8], start: usize) -> Option<usize>
    ensures sound { IfSome result (λ size. (blob : List ℕ) × (stands : IsCounted heap.now start blob) × (size ≡ length stands.count + length blob)) }
    ensures within { IfSome result (λ size. start + size ≤ length heap.now) }
    ensures some { IfSome result (λ size. 1 ≤ size) }
    ensures complete { (blob : List ℕ) (stands : IsCounted heap.now start blob)
        → IsSomeAnd result (λ size. size ≡ length stands.count + length blob) }
{
    if start > heap.len() {
        return None;
    }
    let (_, tail) = heap.split_at(start);
    let (count, used) = read_unsigned(tail)?;
    let (_, blob) = tail.split_at(used);
    if blob.len() < count as usize {
        return None;
    }
    Some(used + count as usize)
}

/// The offset and the size of the blob at an index if it has the byte.
fn blob_at(target: &Target<'_>, index: u32) -> Option<(u64, u64)>
    requires { AreReady target.now }
    ensures sound { IfSome result (λ span. IsBlobAt (heap_of target.now.blobs) index span.0 span.1 × (has_byte span.0 span.1 target.now.offset ≡ true)) }
    ensures none { IfNone result ((start size : ℕ) → IsBlobAt (heap_of target.now.blobs) index start size → has_byte start size target.now.offset ≡ true → ⊥) }
{
    if index == 0 {
        return None;
    }
    let size = blob_size(target.blobs.bytes, index as usize)? as u64;
    let start = target.blobs.start + u64::from(index);
    if !has_byte(start, size, target.offset) {
        return None;
    }
    Some((start, size))
}

/// The offset and the size of the entry that an index in a column of a kind names, if it has the byte. It takes constant time.
fn entry_at(target: &Target<'_>, kind: ColumnKind, index: u32) -> Option<(u64, u64)>
    requires { AreReady target.now }
    ensures sound { IfSome result (λ span. IsNamed (heaps_of target.now) kind index span.0 span.1 × (has_byte span.0 span.1 target.now.offset ≡ true)) }
    ensures none { IfNone result ((start size : ℕ) → IsNamed (heaps_of target.now) kind index start size → has_byte start size target.now.offset ≡ true → ⊥) }
{
    match kind {
        ColumnKind::Text => string_at(target, index),
        ColumnKind::Guid => guid_at(target, index),
        ColumnKind::Blob | ColumnKind::Signature(_) => blob_at(target, index),
        _ => None,
    }
}

/// The heap that a column of a kind indexes.
fn heap_named(kind: ColumnKind) -> Kind
    ensures { result ≡ heap_named kind }
{
    match kind {
        ColumnKind::Text => Kind::Strings,
        ColumnKind::Guid => Kind::Guids,
        _ => Kind::Blobs,
    }
}

/// The greatest number of cells that are listed.
const MOST_CELLS: usize = 10;

/// Keeps the entry that a cell refers to, if it contains the byte, unless the greatest number of entries is 0.
/// Returns how many of this number are left.
fn find_named(
    rows: &Rows<'_>,
    target: &Target<'_>,
    cell: TableCell,
    most: usize,
    found: &mut Search<'_>,
) -> usize
    requires ready { AreReady target.now }
    requires first { 1 ≤ cell.row }
    requires last { cell.row ≤ count_of rows.now.sizes cell.table }
    requires column { cell.column < length (columns_of cell.table) }
    ensures { FindsFirst target.now rows.now most result (cell ∷ []) found.old found.new }
{
    if most == 0 {
        return 0;
    }
    let kind = kind_of(cell);
    match entry_at(target, kind, rows.number(cell.table, cell.row, cell.column)) {
        Some((start, size)) => {
            let what = What::Entry(heap_named(kind), cell);
            found.keep(Structure { start, size, what });
            most - 1
        }
        None => most,
    }
}

/// Keeps the entries that contain the byte, for the first ten cells that refer to one. It reads all cells.
pub(crate) fn find_entries(rows: &Rows<'_>, target: &Target<'_>, found: &mut Search<'_>)
    requires ready { AreReady target.now }
    requires offset { target.now.offset ≡ found.old.offset }
    ensures { Finds (AreEntriesAt (heaps_of target.now) rows.now.bytes rows.now.sizes) found.old found.new }
{
    let tables = TableId::all();
    let mut left = MOST_CELLS;
    for of in tables {
        let table = *of;
        for before in 0..rows.layout().count(table) {
            let row = before + 1;
            for column in 0..columns(table).len() {
                let cell = TableCell { table, row, column };
                left = find_named(rows, target, cell, left, found);
            }
        }
    }
}
