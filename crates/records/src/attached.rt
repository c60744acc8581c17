ghost use Rattle.std.specs.Prelude.{[], ◌∷◌};
ghost use Rattle.table_schema.specs.declared.table.TableId.TheVariants as table;
ghost use Rattle.metadata.specs.Cell.{Number, Bytes, Ref};

use std::alloc::{AllocError, Global};
use type_records::{Cell, FromRow, Record, Row, TableId, Token, owned_row, read_row};

/// The constant value of a field, parameter or property (II.22.9).
#[derive(Clone, Copy, Debug, PartialEq, Eq)]
pub struct Constant<'m> {
    /// The element type of the value (II.23.1.16), in the column Type.
    pub kind: u32,
    /// The Field, Param or Property.
    pub parent: Option<Token>,
    /// The value, in little-endian order, or the UTF-16 of a string. Four zero bytes are the null of a class.
    pub value: &'m [u8],
}

impl<'m, W: Row<'m>> FromRow<'m, W> for Constant<'m> {
    ghost TABLE = { table.Constant };

    ghost fields = { λ r. Number r.kind ∷ Ref r.parent ∷ Bytes r.value.now ∷ [] };

    const TABLE: TableId = TableId::Constant;

    fn from_row(row: &W) -> Constant<'m> {
        read_row!(row => Constant; kind: number(0), parent: reference(1), value: bytes(2))
    }
}

impl<'m> Record<'m> for Constant<'m> {
    fn cells(&self, alloc: Global) -> Result<Vec<Cell>, AllocError> {
        owned_row!(alloc; Number self.kind, Ref self.parent, Bytes self.value)
    }
}

/// A custom attribute (II.22.10).
#[derive(Clone, Copy, Debug, PartialEq, Eq)]
pub struct CustomAttribute<'m> {
    /// The row that it is attached to, in one of the tables of HasCustomAttribute (II.24.2.6).
    pub parent: Option<Token>,
    /// Its constructor, a MethodDef or MemberRef, in the column Type.
    pub kind: Option<Token>,
    /// The arguments of the constructor, and the fields and properties that are set (II.23.3). It may be empty if
    /// there are none.
    pub value: &'m [u8],
}

impl<'m, W: Row<'m>> FromRow<'m, W> for CustomAttribute<'m> {
    ghost TABLE = { table.CustomAttribute };

    ghost fields = { λ r. Ref r.parent ∷ Ref r.kind ∷ Bytes r.value.now ∷ [] };

    const TABLE: TableId = TableId::CustomAttribute;

    fn from_row(row: &W) -> CustomAttribute<'m> {
        read_row!(row => CustomAttribute; parent: reference(0), kind: reference(1), value: bytes(2))
    }
}

impl<'m> Record<'m> for CustomAttribute<'m> {
    fn cells(&self, alloc: Global) -> Result<Vec<Cell>, AllocError> {
        owned_row!(alloc; Ref self.parent, Ref self.kind, Bytes self.value)
    }
}

/// A permission set of a type, a method or the assembly (II.22.11).
#[derive(Clone, Copy, Debug, PartialEq, Eq)]
pub struct DeclSecurity<'m> {
    /// The security action.
    pub action: u32,
    /// The TypeDef, MethodDef or Assembly.
    pub parent: Option<Token>,
    /// The permission set.
    pub permission_set: &'m [u8],
}

impl<'m, W: Row<'m>> FromRow<'m, W> for DeclSecurity<'m> {
    ghost TABLE = { table.DeclSecurity };

    ghost fields = { λ r. Number r.action ∷ Ref r.parent ∷ Bytes r.permission_set.now ∷ [] };

    const TABLE: TableId = TableId::DeclSecurity;

    fn from_row(row: &W) -> DeclSecurity<'m> {
        read_row! {
            row => DeclSecurity;
            action: number(0), parent: reference(1), permission_set: bytes(2),
        }
    }
}

impl<'m> Record<'m> for DeclSecurity<'m> {
    fn cells(&self, alloc: Global) -> Result<Vec<Cell>, AllocError> {
        owned_row!(alloc; Number self.action, Ref self.parent, Bytes self.permission_set)
    }
}
