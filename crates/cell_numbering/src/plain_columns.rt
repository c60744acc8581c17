ghost use Rattle.std.specs.Prelude.{◌≡◌, ◌≤◌, ◌<◌, IfOk, IfSome};
ghost use Rattle.table_schema.specs.CellColumns.{cell_count};
ghost use Rattle.metadata.specs.Metadata.{Metadata};
ghost use Rattle.cell_numbering.specs.PlainColumns.{ArePlain, IsLeast, IsPlainIn, number_in};

use metadata_source::{ReadCells, kind_of};
use rows::ColumnNumbers;
use std::alloc::{AllocError, Global};
use std::marker::Model;
use table_schema::{ColumnKind, TableId, cell_count};

/// A column whose numbers are those in the canonical root, but for null, which is 0 there.
#[derive(Drop)]
pub struct PlainColumn<'a> {
    column: ColumnNumbers<'a>,
    /// The least number that is not null. A coded index that is null may have a tag.
    least: u32,
}

impl<'a> Model for PlainColumn<'a> {
    ghost use Rattle.cell_numbering.specs.PlainColumns.{Plain, plain_of};

    ghost Value = { Plain };

    ghost view = { plain_of };
}

impl<'a> PlainColumn<'a> {
    /// The number of a row's cell in the canonical root. Rows are counted from 1.
    #[inline]
    pub fn number(&self, row: u32) -> u32
        requires first { 1 ≤ row }
        requires last { row ≤ self.now.column.count }
        ensures { result ≡ number_in self.now row }
    {
        let number = self.column.number(row);
        if number < self.least { 0 } else { number }
    }
}

/// The least number that is not null in a column of a kind, if the other numbers are those in the canonical root.
fn least_number(kind: ColumnKind) -> Option<u32>
    ensures { IfSome result (IsLeast kind) }
{
    match kind {
        ColumnKind::U8 | ColumnKind::U16 | ColumnKind::U32 | ColumnKind::Row(_) => Some(0),
        ColumnKind::Coded(coded) => Some(1 << coded.tag_bits()),
        _ => None,
    }
}

/// The column of a cell, if its numbers are also those in the canonical root.
fn plain_column<S: ReadCells>(
    source: &S,
    table: TableId,
    cell_index: usize,
) -> Option<PlainColumn<'_>>
    requires { cell_index < cell_count table }
    ensures count { IfSome result (λ plain. plain.column.count ≡ S.row_count source.now table) }
    ensures plain { (model : Metadata) → S.shows source.now model → IfSome result (IsPlainIn model table cell_index) }
{
    source.holds_one();
    let least = least_number(kind_of(table, cell_index))?;
    let column = source.column_numbers(table, cell_index)?;
    Some(PlainColumn { column, least })
}

/// The columns of a table's cells, each if its numbers are also those in the canonical root.
pub fn plain_columns<S: ReadCells>(
    alloc: Global,
    source: &S,
    table: TableId,
) -> Result<Vec<Option<PlainColumn<'_>>>, AllocError>
    ensures { IfOk result (λ columns. ArePlain (S.row_count source.now table) (S.shows source.now) table columns.items) }
{
    let mut columns = Vec::with_capacity(alloc, cell_count(table))?;
    for cell_index in 0..cell_count(table) {
        columns.push(plain_column(source, table, cell_index))?;
    }
    Ok(columns)
}
