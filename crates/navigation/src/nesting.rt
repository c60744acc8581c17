ghost use Rattle.std.specs.Prelude.{◌≤◌, ◌<◌, ℕ, IfSome, IfNone};
ghost use Rattle.table_schema.specs.declared.table.TableId.TheVariants.{TypeDef, TypeRef, NestedClass};
ghost use Rattle.metadata.specs.Metadata.{Metadata};
ghost use Rattle.navigation.specs.Nesting.{IsNesting, IsFirstNesting, IsEnclosed, IsScope};

use crate::cells;
use metadata_source::{ReadCells, rows_by_key};
use table_schema::{TableId, Token};

/// The cell of the type that encloses another (II.22.32).
const ENCLOSING: usize = 1;

/// The first row of NestedClass of a nested type; `None` if the type is not nested.
fn first_nesting<S: ReadCells>(source: &S, row: u32) -> Option<u32>
    ensures sound { (model : Metadata) → S.shows source.now model → IfSome result (IsFirstNesting model row) }
    ensures none { (model : Metadata) → S.shows source.now model → IfNone result ((nesting : ℕ) → ¬ IsNesting model row nesting) }
    ensures there { IfSome result (λ nesting. (1 ≤ nesting) × (nesting ≤ S.row_count source.now NestedClass)) }
{
    source.holds_one();
    let nested = Token {
        table: TableId::TypeDef,
        row,
    };
    let mut nestings = rows_by_key(source, TableId::NestedClass, nested);
    nestings.next()
}

/// The type that encloses a nested type, as a row of TypeDef (II.22.32); `None` if the type is not nested.
///
/// It comes before the nested type, so that a chain of enclosing types ends. A chain may be as long as the table. If more
/// than one row of NestedClass has the type, it is that of the first. The row is found by binary search if the table is
/// in order. Otherwise each row is looked at.
#[tactic(auto, unfolding(table_schema::specs::CellColumns::cell_columns))]
pub fn enclosing_type<S: ReadCells>(source: &S, row: u32) -> Option<u32>
    ensures sound { (model : Metadata) → S.shows source.now model → IfSome result (IsEnclosed model row) }
    ensures none { (model : Metadata) → S.shows source.now model → IfNone result ((nesting : ℕ) → ¬ IsNesting model row nesting) }
    ensures first { IfSome result (λ outer. 1 ≤ outer) }
    ensures before { IfSome result (λ outer. outer < row) }
    ensures last { IfSome result (λ outer. outer ≤ S.row_count source.now TypeDef) }
{
    source.holds_one();
    let table = TableId::NestedClass;
    match first_nesting(source, row) {
        Some(nesting) => Some(cells::target(source, TableId::TypeDef, table, nesting, ENCLOSING)),
        None => None,
    }
}

/// The cell of a TypeRef's scope (II.22.38).
const SCOPE: usize = 0;

/// The TypeRef that encloses a TypeRef: its scope, if that is a TypeRef (II.22.38); `None` for any other scope.
///
/// The scopes of TypeRefs may go in a circle. So a client that follows them needs a bound.
#[tactic(auto, unfolding(table_schema::specs::CellColumns::cell_columns))]
pub fn enclosing_type_ref<S: ReadCells>(source: &S, row: u32) -> Option<u32>
    requires first { 1 ≤ row }
    requires last { row ≤ S.row_count source.now TypeRef }
    ensures sound { (model : Metadata) → S.shows source.now model → IfSome result (IsScope model row) }
    ensures none { (model : Metadata) → S.shows source.now model → IfNone result ((outer : ℕ) → ¬ IsScope model row outer) }
    ensures first { IfSome result (λ outer. 1 ≤ outer) }
    ensures last { IfSome result (λ outer. outer ≤ S.row_count source.now TypeRef) }
{
    source.holds_one();
    let scope = cells::reference(source, TableId::TypeRef, row, SCOPE)?;
    if scope.table != TableId::TypeRef {
        return None;
    }
    Some(scope.row)
}
