ghost use Rattle.std.specs.Prelude.{◌≡◌, [], ◌∷◌, IfOk};
ghost use Rattle.table_schema.specs.declared.table.TableId.TheVariants as table;
ghost use Rattle.table_schema.specs.declared.column.SigKind.TheVariants as column;
ghost use Rattle.metadata.specs.Cell.{Number, Text, Ref, Start, Sig};
ghost use Rattle.tables.specs.Said.{all_said};

use std::alloc::{AllocError, Global};
use type_records::{
    Cell, FromRow, IsSignature, Record, Row, SigKind, Signature, TableId, Token, owned_row,
    read_row,
};

/// A type that has properties (II.22.35).
#[derive(Clone, Copy, Debug, PartialEq, Eq)]
pub struct PropertyMap {
    /// The type, in TypeDef.
    pub parent: Option<Token>,
    /// The first of its properties, in Property.
    pub property_list: u32,
}

impl<'m, W: Row<'m>> FromRow<'m, W> for PropertyMap {
    ghost TABLE = { table.PropertyMap };

    ghost fields = { λ r. Ref r.parent ∷ Start r.property_list ∷ [] };

    const TABLE: TableId = TableId::PropertyMap;

    fn from_row(row: &W) -> PropertyMap {
        read_row!(row => PropertyMap; parent: reference(0), property_list: start(1))
    }
}

impl<'m> Record<'m> for PropertyMap {
    fn cells(&self, alloc: Global) -> Result<Vec<Cell>, AllocError>
        ensures { IfOk result (λ cells. all_said cells.items ≡ Ref self.now.parent ∷ Start self.now.property_list ∷ []) }
    {
        owned_row!(alloc; Ref self.parent, Start self.property_list)
    }
}

/// A property of a type (II.22.34).
#[derive(Copy, Debug, PartialEq, Eq)]
pub struct Property<'m, S = &'m Signature> {
    /// PropertyAttributes (II.23.1.14).
    pub flags: u32,
    /// The property's name.
    pub name: &'m str,
    /// Its type and parameters (II.23.2.5), in the column Type.
    pub kind: S,
}

impl<'m, S: Clone> Clone for Property<'m, S> {
    fn clone(&self) -> Result<Self, AllocError> {
        let kind = self.kind.clone()?;
        Ok(Property { kind, ..*self })
    }
}

impl<'m, S: IsSignature, W: Row<'m, Signature = S>> FromRow<'m, W> for Property<'m, S> {
    ghost TABLE = { table.Property };

    ghost fields = { λ r. Number r.flags ∷ Text r.name.now ∷ Sig (S.body column.Property r.kind) ∷ [] };

    const TABLE: TableId = TableId::Property;

    fn from_row(row: &W) -> Property<'m, S> {
        read_row! {
            row => Property;
            flags: number(0), name: text(1), kind: signature(2, SigKind::Property),
        }
    }
}

impl<'m> Record<'m> for Property<'m> {
    fn cells(&self, alloc: Global) -> Result<Vec<Cell>, AllocError> {
        owned_row!(alloc; Number self.flags, Text self.name, Sig self.kind)
    }
}
