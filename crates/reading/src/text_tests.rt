ghost use Rattle.std.specs.Prelude.{◌≡◌, ◌≤◌, ◌<◌, ◌↔◌, ◌++◌, ◌∷◌, ℕ, List, IsTrue};
ghost use Rattle.heap_entries.specs.Entries.{IsText, HasNoNul};
ghost use Rattle.table_schema.specs.declared.column.ColumnKind.TheVariants as kind;
ghost use Rattle.table_schema.specs.Columns.{column_at};
ghost use Rattle.table_schema.specs.CellColumns.{cell_count, column_of};
ghost use Rattle.metadata.specs.Cell.{Text};
ghost use Rattle.metadata.specs.Metadata.{Metadata, cell_in};
ghost use Rattle.metadata.specs.Source.{rows_in};
ghost use Rattle.reading.specs.ReadFrom.{IsReadFrom};

use crate::source::Source;
use table_schema::{TableId, column_of_cell};

/// Whether a cell of a row is a text, in a column of texts (II.24.2.3).
///
/// The bytes are compared in place, up to the first that differs.
pub fn is_text_at(source: &Source, table: TableId, row: u32, cell: usize, sought: &str) -> bool
    requires first { 1 ≤ row }
    requires last { row ≤ rows_in source.now.source table }
    requires cell { cell < cell_count table }
    requires kind { (column_at table (column_of table cell)).kind ≡ kind.Text }
    ensures { (model : Metadata) → IsReadFrom source.now.source model → IsTrue result ↔ (cell_in model table row cell ≡ Text sought.now) }
{
    let index = source.number(table, row, column_of_cell(table, cell));
    is_text(source.texts(), index, sought.as_bytes())
}

/// Whether the text of an index is the one that is sought.
fn is_text(heap: &[u8], index: u32, sought: &[u8]) -> bool
    ensures { (text : List ℕ) → IsText heap.now index text → IsTrue result ↔ (text ≡ sought.now) }
{
    if index == 0 {
        return sought.is_empty();
    }
    if heap.len() < index as usize {
        return false;
    }
    let (_, tail) = heap.split_at(index as usize);
    is_before_nul(tail, sought)
}

/// Whether these bytes stand before the first NUL.
fn is_before_nul(bytes: &[u8], sought: &[u8]) -> bool
    ensures { (text after : List ℕ) → bytes.now ≡ text ++ 0 ∷ after → HasNoNul text → IsTrue result ↔ (text ≡ sought.now) }
{
    let Some(after) = bytes.strip_prefix(sought) else {
        return false;
    };
    let Some(end) = after.first() else {
        return false;
    };
    *end == 0 && !sought.contains(&0)
}
