//! The constructors of custom attributes (II.22.10), and the types that have them.
ghost use Rattle.std.specs.Prelude.{◌≡◌, ◌≤◌, IfSome};
ghost use Rattle.table_schema.specs.declared.table.TableId.TheVariants.{CustomAttribute};
ghost use Rattle.metadata.specs.Cell.{reference_in};
ghost use Rattle.metadata.specs.Metadata.{Metadata, cell_in};
ghost use Rattle.metadata.specs.Model.{IsModel};
ghost use Rattle.opening.specs.Views.{row_count};
ghost use Rattle.custom_attributes.specs.Constructors.{type_of};

use navigation::{Neighbours, ReadMetadata, cells, type_of_method};
use opening::{TableId, Token, View};

/// The index of the cell with the constructor of an attribute (II.22.10).
const CONSTRUCTOR: usize = 1;

/// The index of the cell with the parent of a MemberRef (II.22.25).
const PARENT: usize = 0;

/// The constructor of the attribute in a row, which is a row of MethodDef or MemberRef (II.22.10).
#[tactic(auto, unfolding(table_schema::specs::CellColumns::cell_columns))]
pub fn constructor(view: &View<'_>, row: u32) -> Option<Token>
    requires first { 1 ≤ row }
    requires last { row ≤ row_count view.now CustomAttribute }
    ensures value { (model : Metadata) → IsModel view.now model → result ≡ reference_in (cell_in model CustomAttribute row 1) }
    ensures there { IfSome result (λ of. (1 ≤ of.row) × (of.row ≤ row_count view.now of.table)) }
{
    cells::reference(view, TableId::CustomAttribute, row, CONSTRUCTOR)
}

/// The type that has a constructor (II.22.25, II.22.37). A row of MethodDef is found by binary search.
#[tactic(auto, using(crate::proofs::OwnerLemmas::no_type), unfolding(table_schema::specs::CellColumns::cell_columns))]
pub fn type_of(source: &Neighbours<'_, '_>, of: Token) -> Option<Token>
    requires first { 1 ≤ of.row }
    requires last { of.row ≤ row_count source.now.view.now of.table }
    ensures value { (model : Metadata) → IsModel source.now.view.now model → result ≡ type_of model of.table of.row }
    ensures there { IfSome result (λ class. (1 ≤ class.row) × (class.row ≤ row_count source.now.view.now class.table)) }
{
    source.holds_one();
    match of.table {
        TableId::MethodDef => Some(Token {
            table: TableId::TypeDef,
            row: type_of_method(source, of.row),
        }),
        TableId::MemberRef => cells::reference(source, TableId::MemberRef, of.row, PARENT),
        _ => None,
    }
}
