use metadata::MemberList;
use table_schema::TableId;

/// A value that holds one metadata, which reading does not change.
///
/// Rows count from 1. A cell is named by its index in its row, from 0 on.
pub trait ReadMetadata {
    ghost use Rattle.std.specs.Prelude.{◌≡◌, ◌≤◌, ◌<◌, ◌↔◌, ℕ, IsTrue, IsSome};
    ghost use Rattle.heap_entries.specs.Padding.{zero_padded};
    ghost use Rattle.table_schema.specs.declared.table.TableId.{TableId as Table};
    ghost use Rattle.table_schema.specs.declared.column.ColumnKind.TheVariants as kind;
    ghost use Rattle.table_schema.specs.Columns.{key_of};
    ghost use Rattle.table_schema.specs.CellColumns.{cell_count};
    ghost use Rattle.metadata.specs.Cell.{Text, Start};
    ghost use Rattle.metadata.specs.Metadata.{Metadata, count_in, cell_in};
    ghost use Rattle.metadata.specs.Lookups.{IsKeyCell};
    ghost use Rattle.metadata.specs.KeyOrder.{key_in, IsKeyOrdered};
    ghost use Rattle.metadata.specs.Valid.{IsValid, kind_at};
    ghost use Rattle.metadata.specs.MemberLists.{owner_of, cell_of};

    // It holds this metadata.
    ghost shows: { Self → Metadata → Type 0 };

    // How many rows a table has.
    ghost row_count: { Self → Table → ℕ };

    // The key number of a row, by the index of the key among its cells.
    ghost key_number: { Self → Table → ℕ → ℕ → ℕ };

    /// It holds some metadata, which is valid. Nothing is done.
    fn holds_one(&self)
        ensures shown { ∥ ((model : Metadata) × shows self.now model) ∥₁ }
        ensures valid { (model : Metadata) → shows self.now model → IsValid model }
        ensures rows { (model : Metadata) → shows self.now model → (table : Table) → count_in model table ≡ row_count self.now table }
        ensures keys { (model : Metadata) → shows self.now model → (table : Table) (cell row : ℕ) → IsKeyCell table cell
            → 1 ≤ row → row ≤ row_count self.now table → key_number self.now table cell row ≡ key_in model table cell row };

    /// The version string (II.24.2.1).
    fn version(&self) -> &str
        ensures { (model : Metadata) → shows self.now model → result.now ≡ model.version };

    /// The bytes of `#US`. Padded with zeros to a multiple of four, they are the user strings (II.24.2.4).
    fn user(&self) -> &[u8]
        ensures { (model : Metadata) → shows self.now model → zero_padded result.now ≡ model.user };

    /// The number of rows of a table.
    fn count(&self, table: TableId) -> u32
        ensures rows { result ≡ row_count self.now table }
        ensures limit { result ≤ 0xFFFFFF };

    /// Where the run of an owner begins.
    fn start(&self, list: MemberList, row: u32) -> u32
        requires first { 1 ≤ row }
        requires last { row ≤ row_count self.now (owner_of list) }
        ensures { (model : Metadata) → shows self.now model → cell_in model (owner_of list) row (cell_of list) ≡ Start result };

    /// Whether a cell is a text, in a column of texts.
    fn is_text(&self, table: TableId, row: u32, cell: usize, sought: &str) -> bool
        requires first { 1 ≤ row }
        requires last { row ≤ row_count self.now table }
        requires cell { cell < cell_count table }
        requires kind { kind_at table cell ≡ kind.Text }
        ensures { (model : Metadata) → shows self.now model → IsTrue result ↔ (cell_in model table row cell ≡ Text sought.now) };

    /// The key number of a row, by the index of the key among its cells.
    fn key(&self, table: TableId, row: u32, cell: usize) -> u32
        requires key { IsKeyCell table cell }
        requires first { 1 ≤ row }
        requires last { row ≤ row_count self.now table }
        ensures { result ≡ key_number self.now table cell row };

    /// Whether the key numbers of a table never fall.
    fn in_order(&self, table: TableId) -> bool
        requires { IsSome (key_of table) }
        ensures { (model : Metadata) → shows self.now model → IsTrue result ↔ IsKeyOrdered model table };
}
