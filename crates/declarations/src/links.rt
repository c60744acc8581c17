//! The rows that refer to a method and to its parameters.
ghost use Rattle.std.specs.Prelude.{◌≤◌, All};
ghost use Rattle.table_schema.specs.declared.table.TableId.TheVariants.{GenericParam};
ghost use Rattle.opening.specs.Views.{row_count};

use navigation::{KeyedRow, Link, Neighbours};
use table_schema::{TableId, Token};

/// What finds the rows that refer to the parameters of a method, and the rows of GenericParam that refer to the method.
#[derive(Clone, Copy)]
pub struct Links<'s> {
    /// The view with its references.
    pub neighbours: &'s Neighbours<'s, 's>,
    /// The rows of its generic parameters.
    pub generics: &'s [KeyedRow],
    ghost within: { All (λ found. (1 ≤ found.row) × (found.row ≤ row_count neighbours.now.view.now GenericParam)) generics.now },
}

impl<'s> Links<'s> {
    ghost use Rattle.std.specs.Prelude.{◌≡◌, ◌≤◌, map};
    ghost use Rattle.table_schema.specs.declared.table.TableId.TheVariants.{MethodDef};
    ghost use Rattle.metadata.specs.Metadata.{Metadata};
    ghost use Rattle.metadata.specs.Model.{IsModel};
    ghost use Rattle.navigation.specs.declared.links.Link.TheVariants as link_of;
    ghost use Rattle.navigation.specs.Keyed.{row_of};
    ghost use Rattle.navigation.specs.Linked.{linked};
    ghost use Rattle.opening.specs.Views.{row_count};

    /// Those of a method. They are found by binary search.
    pub fn new(neighbours: &'s Neighbours<'s, 's>, method: u32) -> Links<'s>
        requires { method ≤ row_count neighbours.now.view.now MethodDef }
        ensures same { result.neighbours.now ≡ neighbours.now }
        ensures generics { (model : Metadata) → IsModel neighbours.now.view.now model
            → map row_of result.generics.now ≡ linked model link_of.GenericParams (record { table = MethodDef; row = method }) }
    {
        // The table has at most 0xFFFFFF rows.
        let _count = neighbours.view.count(TableId::MethodDef);
        let token = Token {
            table: TableId::MethodDef,
            row: method,
        };
        let number = Link::GenericParams.number_to(token);
        Links {
            neighbours,
            generics: neighbours.linked(Link::GenericParams, number),
        }
    }
}
