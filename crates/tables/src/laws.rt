ghost use Rattle.std.specs.Prelude.{◌≡◌, ◌≢◌, ◌↔◌, ◌∷◌, ◌++◌, [], IsTrue, List, length};
ghost use Rattle.table_schema.specs.declared.table.TableId.{TableId as Table};
ghost use Rattle.metadata.specs.Cell.{Cell};
ghost use Rattle.metadata.specs.Metadata.{Metadata, rows_of};
ghost use Rattle.tables.specs.Push.{with_row};

use crate::tables::Tables;

/// `==` is true of two tables if and only if their versions, user bytes and cells are equal.
pub fn equality_is_tested()
    ensures { (first second : Metadata) → IsTrue (⟦<Tables as PartialEq>⟧.eq first second) ↔ (first ≡ second) }
{
    signatures::laws::equality_is_tested();
}

/// A row that is added follows the other rows of its table, and no other table changes.
#[tactic(auto, using(crate::proofs::PushLemmas::added, crate::proofs::PushLemmas::others_stay))]
pub fn rows_are_added()
    ensures table { (model : Metadata) (table : Table) (row : List Cell) → length model.tables ≡ 38
        → rows_of (with_row model table row) table ≡ rows_of model table ++ row ∷ [] }
    ensures others { (model : Metadata) (table other : Table) (row : List Cell) → other ≢ table
        → rows_of (with_row model table row) other ≡ rows_of model other }
    ensures tables { (model : Metadata) (table : Table) (row : List Cell) → length (with_row model table row).tables ≡ length model.tables }
{}
