ghost use Rattle.std.specs.Prelude.{◌≡◌, ◌≤◌, ◌↔◌, ℕ, IsTrue, IfSome, IfNone};
ghost use Rattle.table_schema.specs.declared.table.TableId.TheVariants.{TypeDef};
ghost use Rattle.metadata.specs.Metadata.{Metadata};
ghost use Rattle.metadata.specs.Lookups.{HasRow, HasNames, IsFirstType};

use crate::source::ReadMetadata;
use table_schema::TableId;

/// The cell of a type's name (II.22.37).
const NAME: usize = 1;

/// The cell of a type's namespace (II.22.37).
const NAMESPACE: usize = 2;

/// The first type of a namespace and a name, by its row; `None` if no type has them (II.22.37).
///
/// A type without a namespace has the empty one. The names of each type before it are compared, up to
/// the first byte that differs.
pub fn find_type<S: ReadMetadata>(source: &S, namespace: &str, name: &str) -> Option<u32>
    ensures sound { (model : Metadata) → S.shows source.now model → IfSome result (IsFirstType model namespace.now name.now) }
    ensures none { (model : Metadata) → S.shows source.now model
        → IfNone result ((row : ℕ) → HasRow model TypeDef row → ¬ HasNames model namespace.now name.now row) }
{
    source.holds_one();
    for row in 1..source.count(TableId::TypeDef) + 1 {
        if has_names(source, row, namespace, name) {
            return Some(row);
        }
    }
    None
}

/// Whether a type has a namespace and a name (II.22.37).
#[tactic(auto, unfolding(table_schema::specs::CellColumns::cell_columns))]
fn has_names<S: ReadMetadata>(source: &S, row: u32, namespace: &str, name: &str) -> bool
    requires first { 1 ≤ row }
    requires last { row ≤ S.row_count source.now TypeDef }
    ensures { (model : Metadata) → S.shows source.now model → IsTrue result ↔ HasNames model namespace.now name.now row }
{
    source.is_text(TableId::TypeDef, row, NAME, name)
        && source.is_text(TableId::TypeDef, row, NAMESPACE, namespace)
}
