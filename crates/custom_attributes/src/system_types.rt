//! Types of the namespace System, by their names.
ghost use Rattle.std.specs.Prelude.{◌≡◌, ◌<◌, ◌≤◌, IsTrue};
ghost use Rattle.table_schema.specs.declared.column.ColumnKind.TheVariants as kind;
ghost use Rattle.table_schema.specs.CellColumns.{cell_count};
ghost use Rattle.metadata.specs.Metadata.{Metadata};
ghost use Rattle.metadata.specs.Valid.{kind_at};
ghost use Rattle.custom_attributes.specs.Types.{has_row, is_named, is_system_type};

use crate::read_view::ReadView;
use opening::{TableId, Token};

/// The indexes of the cells with the name and the namespace of a type (II.22.37, II.22.38).
const NAME: usize = 1;

const NAMESPACE: usize = 2;

/// The namespace of the types that values have.
const SYSTEM: &str = "System";

/// Whether a row of a table exists.
pub(crate) fn has_row<S: ReadView>(source: &S, table: TableId, row: u32) -> bool
    ensures there { IsTrue result → (1 ≤ row) × (row ≤ S.row_count source.now table) }
    ensures value { (model : Metadata) → S.shows source.now model → result ≡ has_row model table row }
{
    source.holds_one();
    1 <= row && row <= source.count(table)
}

/// Whether a row of types exists, and has this name in the namespace System.
fn is_named<S: ReadView>(source: &S, name: &str, table: TableId, row: u32) -> bool
    requires cells { 2 < cell_count table }
    requires name { kind_at table 1 ≡ kind.Text }
    requires namespace { kind_at table 2 ≡ kind.Text }
    ensures { (model : Metadata) → S.shows source.now model → result ≡ is_named model name.now table row }
{
    has_row(source, table, row)
        && source.is_text(table, row, NAMESPACE, SYSTEM)
        && source.is_text(table, row, NAME, name)
}

/// Whether a type is one of this name in the namespace System. It compares the names up to the first byte that differs.
#[tactic(auto, unfolding(table_schema::specs::CellColumns::cell_columns))]
pub(crate) fn is_system_type<S: ReadView>(source: &S, name: &str, of: Token) -> bool
    ensures { (model : Metadata) → S.shows source.now model → result ≡ is_system_type model name.now of }
{
    match of.table {
        TableId::TypeDef => is_named(source, name, TableId::TypeDef, of.row),
        TableId::TypeRef => is_named(source, name, TableId::TypeRef, of.row),
        _ => false,
    }
}
