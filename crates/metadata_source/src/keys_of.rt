ghost use Rattle.metadata.specs.Lookups.{IsKeyCell};
ghost use Rattle.metadata_source.specs.Keys.{all_numbers};

use crate::source::ReadMetadata;
use reading::KeyNumbers;
use table_schema::TableId;

/// The key numbers of a table's rows.
#[derive(Drop)]
pub struct KeysOf<'s, S> {
    /// What holds the rows.
    pub source: &'s S,
    /// The table.
    pub table: TableId,
    /// The index of the key among the cells of a row.
    pub cell: usize,
    ghost key: { IsKeyCell table cell },
}

impl<'s, S: ReadMetadata> KeyNumbers for KeysOf<'s, S> {
    ghost numbers = { λ keys. all_numbers (S.key_number keys.source.now keys.table keys.cell) (S.row_count keys.source.now keys.table) };

    fn count(&self) -> u32 {
        self.source.count(self.table)
    }

    fn number(&self, row: u32) -> u32 {
        self.source.key(self.table, row, self.cell)
    }
}
