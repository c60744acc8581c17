ghost use Rattle.std.specs.Prelude.{◌≡◌, ◌^◌, ◌<◌, ◌≤◌, ◌++◌, [], All, Err, List, ℕ, OnOk, IfOk, length, map};
ghost use Rattle.table_schema.specs.declared.column.ColumnKind.TheVariants.{Text as TextKind};
ghost use Rattle.table_schema.specs.CellColumns.{cell_count};
ghost use Rattle.heap_entries.specs.Entries.{HasNoNul};
ghost use Rattle.heap_pools.specs.HeapTexts.{texts_at};
ghost use Rattle.heap_pools.specs.TextHeap.{holders, text_heap, text_index};
ghost use Rattle.heap_pools.specs.Uses.{bytes_of};
ghost use Rattle.metadata.specs.Metadata.{Metadata, cell_in};
ghost use Rattle.metadata.specs.Valid.{kind_at};
ghost use Rattle.root_writer.specs.Pools.{texts_of};
ghost use Rattle.cell_numbering.specs.TextUses.{AreTextUses, used_texts};

use crate::start_groups::StartGroups;
use crate::use_indexes::indexes_of_uses;
use heap_pools::{PoolError, TextPool};
use metadata_source::ReadCells;
use reading::CellRef;
use std::alloc::{AllocError, Global};
use table_schema::TableId;

/// The texts that cells use, in order of use. They borrow from the source.
#[derive(Drop)]
pub enum TextUses<'a> {
    /// A strings heap, and the index of each text in it (II.24.2.3). The texts are not read yet.
    Indexed(&'a [u8], Vec<u32>),
    /// The texts. They are not read from a heap.
    Read(Vec<&'a str>),
}

/// Plans the strings heap of the texts at these starts of another one, and the index of each use.
fn plan_in(alloc: Global, heap: &[u8], starts: &[u32]) -> Result<(TextPool, Vec<u32>), PoolError>
    ensures entries { IfOk result (λ plan. plan.0.entries ≡ holders (texts_at heap.now starts.now)) }
    ensures indexes { IfOk result (λ plan. plan.1.items ≡ map (text_index (holders (texts_at heap.now starts.now))) (texts_at heap.now starts.now)) }
    ensures full { result ≡ Err PoolError.Full → 2 ^ 30 < length (text_heap (holders (texts_at heap.now starts.now))) }
{
    let groups = StartGroups::of(alloc, starts)?;
    let pool = TextPool::plan_in(alloc, heap, &groups.starts)?;
    let indexes = indexes_of_uses(alloc, &groups.of_use, pool.indexes())?;
    Ok((pool, indexes))
}

/// Plans the strings heap of these texts, and the index of each use.
fn plan_read(alloc: Global, texts: &[&str]) -> Result<(TextPool, Vec<u32>), PoolError>
    requires { All HasNoNul (bytes_of texts.now) }
    ensures entries { IfOk result (λ plan. plan.0.entries ≡ holders (bytes_of texts.now)) }
    ensures indexes { IfOk result (λ plan. plan.1.items ≡ map (text_index (holders (bytes_of texts.now))) (bytes_of texts.now)) }
    ensures full { result ≡ Err PoolError.Full → 2 ^ 30 < length (text_heap (holders (bytes_of texts.now))) }
{
    let pool = TextPool::plan(alloc, texts)?;
    let indexes = Vec::from_slice(alloc, pool.indexes())?;
    Ok((pool, indexes))
}

impl<'a> TextUses<'a> {
    /// No texts of a source yet. The call does not allocate.
    pub fn new<S: ReadCells>(alloc: Global, source: &'a S) -> TextUses<'a>
        ensures { (model : Metadata) → S.shows source.now model → AreTextUses (S.heap_index source.now) model result [] }
    {
        match source.strings_heap() {
            Some(heap) => TextUses::Indexed(heap, Vec::new(alloc)),
            None => TextUses::Read(Vec::new(alloc)),
        }
    }

    /// Adds the text of a cell, by its index if the texts are in a heap.
    pub fn add<S: ReadCells>(
        &mut self,
        source: &'a S,
        table: TableId,
        row: u32,
        cell_index: usize,
        index: Option<u32>,
    ) -> Result<(), AllocError>
        requires first { 1 ≤ row }
        requires last { row ≤ S.row_count source.now table }
        requires cell_index { cell_index < cell_count table }
        requires kind { kind_at table cell_index ≡ TextKind }
        requires index { index ≡ S.heap_index source.now (record { table = table; row = row; cell_index = cell_index }) }
        ensures { (model : Metadata) → S.shows source.now model → (texts : List (List ℕ)) → AreTextUses (S.heap_index source.now) model self.old texts
            → OnOk result (AreTextUses (S.heap_index source.now) model self.new (texts ++ texts_of (cell_in model table row cell_index))) }
    {
        source.holds_one();
        heap_pools::laws::texts_are_at();
        match self {
            TextUses::Indexed(_, indexes) => Ok(indexes.push(index.unwrap_or(0))?),
            TextUses::Read(texts) => match source.cell(table, row, cell_index) {
                CellRef::Text(text) => Ok(texts.push(text)?),
                _ => Ok(()),
            },
        }
    }

    /// Plans the strings heap of these texts, and the index of each text (II.24.2.3). A text that many cells name by one
    /// index is read once.
    ///
    /// # Errors
    ///
    /// Those of [`TextPool::plan`].
    pub fn plan(&self, alloc: Global) -> Result<(TextPool, Vec<u32>), PoolError>
        requires { All HasNoNul (used_texts self.now) }
        ensures entries { IfOk result (λ plan. plan.0.entries ≡ holders (used_texts self.now)) }
        ensures indexes { IfOk result (λ plan. plan.1.items ≡ map (text_index (holders (used_texts self.now))) (used_texts self.now)) }
        ensures full { result ≡ Err PoolError.Full → 2 ^ 30 < length (text_heap (holders (used_texts self.now))) }
    {
        match self {
            TextUses::Indexed(heap, indexes) => plan_in(alloc, heap, indexes),
            TextUses::Read(texts) => plan_read(alloc, texts),
        }
    }
}
