//! Whether a cell is equal in a row of two views.
ghost use Rattle.std.specs.Prelude.{◌≡◌, ◌↔◌, IfNone, IfOk, IfSome, IsTrue, ◌<◌, true, OnOk};
ghost use Rattle.table_schema.specs.declared.column.ColumnKind.TheVariants.{Text};
ghost use Rattle.table_schema.specs.CellColumns.{cell_count, column_of};
ghost use Rattle.sig_grammar.specs.Syntax.{Body};
ghost use Rattle.sig_grammar.specs.Encodes.{Encodes, short};
ghost use Rattle.metadata.specs.Cell.{Cell};
ghost use Rattle.metadata.specs.Metadata.{Metadata, cell_in};
ghost use Rattle.metadata.specs.Model.{IsModel};
ghost use Rattle.metadata.specs.Source.{number_of};
ghost use Rattle.metadata.specs.SourceAt.{source_of};
ghost use Rattle.metadata.specs.Valid.{kind_at};
ghost use Rattle.reading.specs.Shown.{Shows};
ghost use Rattle.reading.specs.declared.cell_ref.CellRef.TheVariants.{Sig};
ghost use Rattle.comparison.specs.SameCells.{AreSignatures, is_same_cell};
ghost use Rattle.comparison.specs.ComparedCells.{AreCells, AreOutcomes, HasBlobNames, IsInBoth, IsInHeap, IsNoted, IsOutcome};

use crate::compared_cells::{CellId, ComparedCells, Outcome};
use crate::laws;
use crate::same_texts::same_texts;
use metadata_source::kind_of;
use opening::{CellCursor, CellRef, TableId, View};
use signatures::{SigError, canonical_encoding};
use std::alloc::{AllocError, Global};
use table_schema::{ColumnKind, SigKind, column_of_cell};

/// The least length of a text or a blob that is long. A shorter one is soon compared again.
const LONG: usize = 256;

/// The canonical encoding of the signature in a blob (II.23.2). Fails only if out of memory.
fn shortest(alloc: Global, kind: SigKind, blob: &[u8]) -> Result<Vec<u8>, AllocError>
    ensures { (signature : Body) → Encodes kind signature blob.now → IfOk result (λ bytes. bytes.items ≡ short signature) }
{
    match canonical_encoding(alloc, blob, kind) {
        Ok(encoding) => Ok(encoding),
        Err(SigError::Memory) => Err(AllocError),
        Err(SigError::Bad) => Ok(Vec::new(alloc)),
    }
}

/// Whether the signatures in two blobs of columns of one kind are equal: whether their canonical encodings are. Nothing
/// is decoded if the blobs have the same bytes.
fn same_signature(
    alloc: Global,
    kind: SigKind,
    left: &[u8],
    right: &[u8],
) -> Result<bool, AllocError>
    ensures { (first second : Body) → Encodes kind first left.now → Encodes kind second right.now
        → IfOk result (λ same. IsTrue same ↔ (first ≡ second)) }
{
    sig_grammar::laws::signatures_are_read();
    sig_grammar::laws::encoded_is_encodable();
    sig_grammar::laws::shortest_encodes();
    if left == right {
        return Ok(true);
    }
    let left_encoding = shortest(alloc, kind, left)?;
    let right_encoding = shortest(alloc, kind, right)?;
    Ok(left_encoding.as_slice() == right_encoding.as_slice())
}

/// The blobs of two signatures; `None` if one of the values is not a signature.
fn blobs_of<'a, 'b>(left: CellRef<'a>, right: CellRef<'b>) -> Option<(&'a [u8], &'b [u8])>
    ensures blobs { IfSome result (λ blobs. (left.entry ≡ Sig blobs.0) × (right.entry ≡ Sig blobs.1)) }
    ensures none { IfNone result (¬ AreSignatures left.entry right.entry) }
{
    match (left, right) {
        (CellRef::Sig(left), CellRef::Sig(right)) => Some((left, right)),
        _ => None,
    }
}

/// Whether two cells are equal, in columns of one kind.
fn same_cell(
    alloc: Global,
    kind: ColumnKind,
    left: CellRef<'_>,
    right: CellRef<'_>,
) -> Result<bool, AllocError>
    ensures { (first second : Cell) → Shows kind left.entry first → Shows kind right.entry second
        → IfOk result (λ same. same ≡ is_same_cell first second) }
{
    sig_encoder::laws::equality_is_tested();
    let Some((left_blob, right_blob)) = blobs_of(left, right) else {
        return Ok(left == right);
    };
    match kind {
        ColumnKind::Signature(kind) => same_signature(alloc, kind, left_blob, right_blob),
        _ => Ok(false),
    }
}

/// Whether the numbers of a column are indexes of texts or blobs.
fn is_in_heap(kind: ColumnKind) -> bool
    ensures { IsTrue result → IsInHeap kind }
{
    matches!(
        kind,
        ColumnKind::Text | ColumnKind::Blob | ColumnKind::Signature(_)
    )
}

/// Whether it takes long to compare two values: one of them is long, or they are encodings of signatures that differ.
fn takes_long(left: CellRef<'_>, right: CellRef<'_>) -> bool {
    match (left, right) {
        (CellRef::Text(left), CellRef::Text(right)) => left.len().max(right.len()) >= LONG,
        (CellRef::Bytes(left), CellRef::Bytes(right)) => left.len().max(right.len()) >= LONG,
        (CellRef::Sig(left), CellRef::Sig(right)) => left.len() >= LONG || left != right,
        _ => false,
    }
}

/// The cells of two views, in one pass over their rows.
#[derive(Drop)]
pub(crate) struct ViewCells<'v, 'a> {
    left: CellCursor<'v, 'a>,
    right: CellCursor<'v, 'a>,
}

impl<'v, 'a> ViewCells<'v, 'a> {
    /// The cells, before the first row.
    pub(crate) fn new(left: &'v View<'a>, right: &'v View<'a>) -> ViewCells<'v, 'a>
        ensures { AreCells left.now right.now result }
    {
        ViewCells {
            left: CellCursor::new(left),
            right: CellCursor::new(right),
        }
    }
}

/// The numbers in the column of a cell of two views.
fn numbers_of(left: &View<'_>, right: &View<'_>, cell: CellId) -> (u32, u32)
    requires row { IsInBoth left.now right.now cell.table cell.row }
    requires index { cell.index < cell_count cell.table }
    ensures left { result.0 ≡ number_of (source_of left.now) cell.table cell.row (column_of cell.table cell.index) }
    ensures right { result.1 ≡ number_of (source_of right.now) cell.table cell.row (column_of cell.table cell.index) }
{
    table_schema::laws::cells_have_columns();
    let CellId { table, row, index } = cell;
    let column = column_of_cell(table, index);
    let left_number = left.source().number(table, row, column);
    let right_number = right.source().number(table, row, column);
    (left_number, right_number)
}

/// Whether the cells with two numbers are blobs whose windows have the same names, and so equal.
fn is_named_same(
    left: &View<'_>,
    right: &View<'_>,
    cell: CellId,
    numbers: (u32, u32),
    compared: &ComparedCells,
) -> bool
    requires index { cell.index < cell_count cell.table }
    requires blobs { HasBlobNames left.now right.now compared.now }
    ensures { IsTrue result → IsOutcome left.now right.now cell.table cell.index numbers.0 numbers.1 true }
{
    metadata::laws::models_are_read();
    laws::cells_are_tested();
    if compared.blobs.windows.names.is_empty() {
        return false;
    }
    let ColumnKind::Blob = kind_of(cell.table, cell.index) else {
        return false;
    };
    let (left_heap, right_heap) = (left.source().blobs(), right.source().blobs());
    compared.blobs.are_equal(left_heap, right_heap, numbers)
}

/// Whether a cell is equal in two views, if that was noted of an earlier row with the same numbers, or if both are blobs
/// whose windows have the same names.
fn known_in_row(
    left: &View<'_>,
    right: &View<'_>,
    cell: CellId,
    compared: &ComparedCells,
) -> Option<bool>
    requires row { IsInBoth left.now right.now cell.table cell.row }
    requires index { cell.index < cell_count cell.table }
    requires compared { AreOutcomes left.now right.now cell.table compared.now }
    ensures { (first second : Metadata) → IsModel left.now first → IsModel right.now second
        → IfSome result (λ same. same ≡ is_same_cell (cell_in first cell.table cell.row cell.index) (cell_in second cell.table cell.row cell.index)) }
{
    if compared.is_empty() {
        return None;
    }
    let numbers = numbers_of(left, right, cell);
    if is_named_same(left, right, cell, numbers, compared) {
        return Some(true);
    }
    compared.known(cell.index, numbers.0, numbers.1)
}

/// The length of a text, in a column of texts.
fn text_len(kind: ColumnKind, value: CellRef<'_>) -> Option<usize>
    ensures { IfSome result (λ _. kind ≡ Text) }
{
    match (kind, value) {
        (ColumnKind::Text, CellRef::Text(text)) => Some(text.len()),
        _ => None,
    }
}

/// What can be noted of all texts that are equal because those of two numbers are.
fn noted_of_texts(
    left: &View<'_>,
    right: &View<'_>,
    cell: CellId,
    numbers: (u32, u32),
    left_value: CellRef<'_>,
) -> Option<Outcome>
    requires { cell.index < cell_count cell.table }
    ensures { IfSome result (IsNoted left.now right.now cell.table) }
{
    metadata::laws::models_are_read();
    heap_pools::laws::texts_are_at();
    laws::cells_are_tested();
    let len = text_len(kind_of(cell.table, cell.index), left_value)?;
    let (left_heap, right_heap) = (left.source().texts(), right.source().texts());
    same_texts(left_heap, right_heap, cell.index, numbers.0, numbers.1, len)
}

/// Notes whether a cell is equal in two views. Of a text this is noted of all texts that end with the same bytes.
fn note_in_row(
    left: &View<'_>,
    right: &View<'_>,
    cell: CellId,
    left_value: CellRef<'_>,
    same: bool,
    compared: &mut ComparedCells,
) -> Result<(), AllocError>
    requires row { IsInBoth left.now right.now cell.table cell.row }
    requires index { cell.index < cell_count cell.table }
    requires in_heap { IsInHeap (kind_at cell.table cell.index) }
    requires compared { AreOutcomes left.now right.now cell.table compared.old }
    requires same { (first second : Metadata) → IsModel left.now first → IsModel right.now second
        → same ≡ is_same_cell (cell_in first cell.table cell.row cell.index) (cell_in second cell.table cell.row cell.index) }
    ensures { OnOk result (AreOutcomes left.now right.now cell.table compared.new) }
{
    metadata::laws::models_are_read();
    metadata::laws::cells_are_one();
    let numbers = numbers_of(left, right, cell);
    if let Some(noted) = noted_of_texts(left, right, cell, numbers, left_value) {
        return compared.note(noted);
    }
    compared.note(Outcome {
        cell_index: cell.index,
        left: numbers.0,
        right: numbers.1,
        count: 1,
        same,
    })
}

/// Counts the bytes of a blob that is equal in two views, so that windows are named after many of them.
fn count_blob(
    alloc: Global,
    left: &View<'_>,
    right: &View<'_>,
    table: TableId,
    left_value: CellRef<'_>,
    same: bool,
    compared: &mut ComparedCells,
) -> Result<(), AllocError>
    requires { AreOutcomes left.now right.now table compared.old }
    ensures { OnOk result (AreOutcomes left.now right.now table compared.new) }
{
    let (CellRef::Bytes(blob), true) = (left_value, same) else {
        return Ok(());
    };
    let blobs = &mut compared.blobs;
    blobs.count_compared(alloc, left.source(), right.source(), blob.len())
}

/// Whether a cell is equal in two views. What it takes long to compare is noted, and known in a later row with the same
/// numbers.
pub(crate) fn is_same_in_row(
    alloc: Global,
    left: &View<'_>,
    right: &View<'_>,
    cell: CellId,
    cells: &mut ViewCells<'_, '_>,
    compared: &mut ComparedCells,
) -> Result<bool, AllocError>
    requires row { IsInBoth left.now right.now cell.table cell.row }
    requires index { cell.index < cell_count cell.table }
    requires cells { AreCells left.now right.now cells.old }
    requires compared { AreOutcomes left.now right.now cell.table compared.old }
    ensures cells { AreCells left.now right.now cells.new }
    ensures compared { OnOk result (AreOutcomes left.now right.now cell.table compared.new) }
    ensures same { (first second : Metadata) → IsModel left.now first → IsModel right.now second
        → IfOk result (λ same. same ≡ is_same_cell (cell_in first cell.table cell.row cell.index) (cell_in second cell.table cell.row cell.index)) }
{
    if let Some(same) = known_in_row(left, right, cell, compared) {
        return Ok(same);
    }
    let CellId { table, row, index } = cell;
    let kind = kind_of(table, index);
    let left_value = cells.left.cell(table, row, index);
    let right_value = cells.right.cell(table, row, index);
    let same = same_cell(alloc, kind, left_value, right_value)?;
    if is_in_heap(kind) && takes_long(left_value, right_value) {
        note_in_row(left, right, cell, left_value, same, compared)?;
        count_blob(alloc, left, right, table, left_value, same, compared)?;
    }
    Ok(same)
}
