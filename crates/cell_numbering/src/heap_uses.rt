ghost use Rattle.std.specs.Prelude.{◌≡◌, ◌≢◌, ◌≤◌, ◌<◌, ◌++◌, ◌∷◌, [], List, OnOk, IfOk, flat_map};
ghost use Rattle.table_schema.specs.declared.column.SigKind.{SigKind as TheKind};
ghost use Rattle.table_schema.specs.declared.column.ColumnKind.TheVariants.{Text, Signature};
ghost use Rattle.table_schema.specs.CellColumns.{cell_count};
ghost use Rattle.metadata.specs.Cell.{Cell as Says};
ghost use Rattle.metadata.specs.Metadata.{Metadata, rows_of, row_of, cell_in};
ghost use Rattle.metadata.specs.Valid.{kind_at};
ghost use Rattle.cell_numbering.specs.HeapUses.{AreUsesIn, all_cells};
ghost use Rattle.cell_numbering.specs.IndexColumns.{AreIndexColumns};

use crate::blob_use::BlobUse;
use crate::blob_uses::BlobUses;
use crate::index_columns::{index_at, index_columns};
use crate::text_uses::TextUses;
use metadata_source::{ReadCells, SignatureBytes, kind_of};
use reading::CellRef;
use rows::ColumnNumbers;
use std::alloc::{AllocError, Global};
use table_schema::{ColumnKind, SigKind, TableId, cell_count};

/// The values that cells use, in order of use. They borrow from the source.
#[derive(Drop)]
pub struct HeapUses<'a> {
    /// The texts.
    pub texts: TextUses<'a>,
    /// The GUIDs; `None` is null.
    pub guids: Vec<Option<[u8; 16]>>,
    /// The blobs, with those of signatures.
    pub blobs: BlobUses<'a>,
}

/// Adds the value of a cell that is neither a text nor a signature, if it is a GUID or a blob.
fn add_value<'a, S: ReadCells>(
    uses: &mut HeapUses<'a>,
    source: &'a S,
    kind: ColumnKind,
    table: TableId,
    row: u32,
    cell_index: usize,
    index: Option<u32>,
) -> Result<(), AllocError>
    requires first { 1 ≤ row }
    requires last { row ≤ S.row_count source.now table }
    requires cell_index { cell_index < cell_count table }
    requires index { index ≡ S.heap_index source.now (record { table = table; row = row; cell_index = cell_index }) }
    requires kind { kind ≡ kind_at table cell_index }
    requires other { (encoded : TheKind) → kind ≢ Signature encoded }
    requires no_text { kind ≢ Text }
    ensures { (model : Metadata) → S.shows source.now model → (cells : List Says) → AreUsesIn (S.heap_index source.now) model uses.old cells
        → OnOk result (AreUsesIn (S.heap_index source.now) model uses.new (cells ++ cell_in model table row cell_index ∷ [])) }
{
    root_writer::laws::cells_can_be_numbered();
    source.holds_one();
    source.shared_blobs_are_one();
    if let Some(known) = uses.blobs.known(kind, index) {
        return Ok(uses.blobs.add_known(known)?);
    }
    match source.cell(table, row, cell_index) {
        CellRef::Guid(guid) => Ok(uses.guids.push(guid)?),
        CellRef::Bytes(blob) => {
            let bytes = SignatureBytes::Stored(blob);
            Ok(uses.blobs.add(BlobUse { kind, index, bytes })?)
        }
        _ => Ok(()),
    }
}

/// Adds the blob of a signature, in a column of signatures of a kind.
fn add_signature<'a, S: ReadCells>(
    alloc: Global,
    uses: &mut HeapUses<'a>,
    source: &'a S,
    encoded: SigKind,
    table: TableId,
    row: u32,
    cell_index: usize,
    index: Option<u32>,
) -> Result<(), AllocError>
    requires first { 1 ≤ row }
    requires last { row ≤ S.row_count source.now table }
    requires cell_index { cell_index < cell_count table }
    requires index { index ≡ S.heap_index source.now (record { table = table; row = row; cell_index = cell_index }) }
    requires kind { kind_at table cell_index ≡ Signature encoded }
    ensures { (model : Metadata) → S.shows source.now model → (cells : List Says) → AreUsesIn (S.heap_index source.now) model uses.old cells
        → OnOk result (AreUsesIn (S.heap_index source.now) model uses.new (cells ++ cell_in model table row cell_index ∷ [])) }
{
    root_writer::laws::cells_can_be_numbered();
    source.holds_one();
    source.shared_blobs_are_one();
    let kind = ColumnKind::Signature(encoded);
    if let Some(known) = uses.blobs.known(kind, index) {
        return Ok(uses.blobs.add_known(known)?);
    }
    let bytes = source.signature(alloc, encoded, table, row, cell_index)?;
    Ok(uses.blobs.add(BlobUse { kind, index, bytes })?)
}

/// Adds the value of a cell, if it is in a heap. No other column is read.
fn add_cell<'a, S: ReadCells>(
    alloc: Global,
    uses: &mut HeapUses<'a>,
    source: &'a S,
    columns: &[Option<ColumnNumbers<'_>>],
    table: TableId,
    row: u32,
    cell_index: usize,
) -> Result<(), AllocError>
    requires columns { AreIndexColumns (S.heap_index source.now) (S.row_count source.now table) table columns.now }
    requires first { 1 ≤ row }
    requires last { row ≤ S.row_count source.now table }
    requires cell_index { cell_index < cell_count table }
    ensures { (model : Metadata) → S.shows source.now model → (cells : List Says) → AreUsesIn (S.heap_index source.now) model uses.old cells
        → OnOk result (AreUsesIn (S.heap_index source.now) model uses.new (cells ++ cell_in model table row cell_index ∷ [])) }
{
    source.holds_one();
    let kind = kind_of(table, cell_index);
    match kind {
        ColumnKind::Text => {
            let index = index_at(source, columns, table, row, cell_index);
            uses.texts.add(source, table, row, cell_index, index)
        }
        ColumnKind::Guid | ColumnKind::Blob => {
            let index = index_at(source, columns, table, row, cell_index);
            add_value(uses, source, kind, table, row, cell_index, index)
        }
        ColumnKind::Signature(encoded) => {
            let index = index_at(source, columns, table, row, cell_index);
            add_signature(alloc, uses, source, encoded, table, row, cell_index, index)
        }
        _ => Ok(()),
    }
}

/// Adds the values of a row's cells.
fn add_row<'a, S: ReadCells>(
    alloc: Global,
    uses: &mut HeapUses<'a>,
    source: &'a S,
    columns: &[Option<ColumnNumbers<'_>>],
    table: TableId,
    row: u32,
) -> Result<(), AllocError>
    requires columns { AreIndexColumns (S.heap_index source.now) (S.row_count source.now table) table columns.now }
    requires first { 1 ≤ row }
    requires last { row ≤ S.row_count source.now table }
    ensures { (model : Metadata) → S.shows source.now model → (cells : List Says) → AreUsesIn (S.heap_index source.now) model uses.old cells
        → OnOk result (AreUsesIn (S.heap_index source.now) model uses.new (cells ++ row_of model table row)) }
{
    source.holds_one();
    for cell_index in 0..cell_count(table) {
        add_cell(alloc, uses, source, columns, table, row, cell_index)?;
    }
    Ok(())
}

/// Adds the values of all cells of a table.
fn add_rows<'a, S: ReadCells>(
    alloc: Global,
    uses: &mut HeapUses<'a>,
    source: &'a S,
    table: TableId,
) -> Result<(), AllocError>
    ensures { (model : Metadata) → S.shows source.now model → (cells : List Says) → AreUsesIn (S.heap_index source.now) model uses.old cells
        → OnOk result (AreUsesIn (S.heap_index source.now) model uses.new (cells ++ flat_map (λ row. row) (rows_of model table))) }
{
    source.holds_one();
    let count = source.count(table);
    if count == 0 {
        return Ok(());
    }
    let columns = index_columns(alloc, source, table)?;
    for row in 0..count {
        add_row(alloc, uses, source, &columns, table, row + 1)?;
    }
    Ok(())
}

/// The values that all cells use, in order of use.
pub fn heap_uses<'a, S: ReadCells>(alloc: Global, source: &'a S) -> Result<HeapUses<'a>, AllocError>
    ensures { (model : Metadata) → S.shows source.now model
        → IfOk result (λ uses. AreUsesIn (S.heap_index source.now) model uses (all_cells model)) }
{
    source.holds_one();
    table_schema::laws::tables_stand();
    let mut uses = HeapUses {
        texts: TextUses::new(alloc, source),
        guids: Vec::new(alloc),
        blobs: BlobUses::new(alloc),
    };
    for table in TableId::all() {
        add_rows(alloc, &mut uses, source, *table)?;
    }
    Ok(uses)
}
