ghost use Rattle.std.specs.Prelude.{◌≡◌, [], ◌∷◌, IfOk};
ghost use Rattle.table_schema.specs.declared.table.TableId.TheVariants as table;
ghost use Rattle.table_schema.specs.declared.column.SigKind.TheVariants as column;
ghost use Rattle.metadata.specs.Cell.{Number, Text, Bytes, Ref, Sig};
ghost use Rattle.tables.specs.Said.{all_said};

use crate::record::{FromRow, Record};
use crate::row::Row;
use crate::signature::IsSignature;
use crate::{owned_row, read_row};
use std::alloc::{AllocError, Global};
use table_schema::{SigKind, TableId};
use tables::{Cell, Signature, Token};

/// A field of a type of this module (II.22.15).
#[derive(Copy, Debug, PartialEq, Eq)]
pub struct Field<'m, S = &'m Signature> {
    /// FieldAttributes (II.23.1.5).
    pub flags: u32,
    /// The field's name.
    pub name: &'m str,
    /// Its type (II.23.2.4).
    pub signature: S,
}

impl<'m, S: Clone> Clone for Field<'m, S> {
    fn clone(&self) -> Result<Self, AllocError> {
        let signature = self.signature.clone()?;
        Ok(Field { signature, ..*self })
    }
}

impl<'m, S: IsSignature, W: Row<'m, Signature = S>> FromRow<'m, W> for Field<'m, S> {
    ghost TABLE = { table.Field };

    ghost fields = { λ r. Number r.flags ∷ Text r.name.now ∷ Sig (S.body column.Field r.signature) ∷ [] };

    const TABLE: TableId = TableId::Field;

    fn from_row(row: &W) -> Field<'m, S> {
        read_row! {
            row => Field;
            flags: number(0), name: text(1), signature: signature(2, SigKind::Field),
        }
    }
}

impl<'m> Record<'m> for Field<'m> {
    fn cells(&self, alloc: Global) -> Result<Vec<Cell>, AllocError> {
        owned_row!(alloc; Number self.flags, Text self.name, Sig self.signature)
    }
}

/// The offset of a field in its type (II.22.16).
#[derive(Clone, Copy, Debug, PartialEq, Eq)]
pub struct FieldLayout {
    /// The offset in bytes from the start of the type.
    pub offset: u32,
    /// The field, in Field.
    pub field: Option<Token>,
}

impl<'m, W: Row<'m>> FromRow<'m, W> for FieldLayout {
    ghost TABLE = { table.FieldLayout };

    ghost fields = { λ r. Number r.offset ∷ Ref r.field ∷ [] };

    const TABLE: TableId = TableId::FieldLayout;

    fn from_row(row: &W) -> FieldLayout {
        read_row!(row => FieldLayout; offset: number(0), field: reference(1))
    }
}

impl<'m> Record<'m> for FieldLayout {
    fn cells(&self, alloc: Global) -> Result<Vec<Cell>, AllocError>
        ensures { IfOk result (λ cells. all_said cells.items ≡ Number self.now.offset ∷ Ref self.now.field ∷ []) }
    {
        owned_row!(alloc; Number self.offset, Ref self.field)
    }
}

/// How a field or parameter is marshalled (II.22.17).
#[derive(Clone, Copy, Debug, PartialEq, Eq)]
pub struct FieldMarshal<'m> {
    /// The Field or Param.
    pub parent: Option<Token>,
    /// Its form in native code: a marshalling descriptor (II.23.4).
    pub native_type: &'m [u8],
}

impl<'m, W: Row<'m>> FromRow<'m, W> for FieldMarshal<'m> {
    ghost TABLE = { table.FieldMarshal };

    ghost fields = { λ r. Ref r.parent ∷ Bytes r.native_type.now ∷ [] };

    const TABLE: TableId = TableId::FieldMarshal;

    fn from_row(row: &W) -> FieldMarshal<'m> {
        read_row!(row => FieldMarshal; parent: reference(0), native_type: bytes(1))
    }
}

impl<'m> Record<'m> for FieldMarshal<'m> {
    fn cells(&self, alloc: Global) -> Result<Vec<Cell>, AllocError> {
        owned_row!(alloc; Ref self.parent, Bytes self.native_type)
    }
}

/// The location of the initial value of a field (II.22.18).
#[derive(Clone, Copy, Debug, PartialEq, Eq)]
pub struct FieldRVA {
    /// The relative virtual address of the value.
    pub rva: u32,
    /// The field, in Field.
    pub field: Option<Token>,
}

impl<'m, W: Row<'m>> FromRow<'m, W> for FieldRVA {
    ghost TABLE = { table.FieldRVA };

    ghost fields = { λ r. Number r.rva ∷ Ref r.field ∷ [] };

    const TABLE: TableId = TableId::FieldRVA;

    fn from_row(row: &W) -> FieldRVA {
        read_row!(row => FieldRVA; rva: number(0), field: reference(1))
    }
}

impl<'m> Record<'m> for FieldRVA {
    fn cells(&self, alloc: Global) -> Result<Vec<Cell>, AllocError>
        ensures { IfOk result (λ cells. all_said cells.items ≡ Number self.now.rva ∷ Ref self.now.field ∷ []) }
    {
        owned_row!(alloc; Number self.rva, Ref self.field)
    }
}

/// A field or method of another module, or a call with variable arguments (II.22.25).
#[derive(Copy, Debug, PartialEq, Eq)]
pub struct MemberRef<'m, S = &'m Signature> {
    /// The parent of the member: a TypeDef, TypeRef, TypeSpec or ModuleRef, or the MethodDef that is called.
    pub class: Option<Token>,
    /// The member's name.
    pub name: &'m str,
    /// The type of the field, or the signature of the method or call (II.23.2.2, II.23.2.4).
    pub signature: S,
}

impl<'m, S: Clone> Clone for MemberRef<'m, S> {
    fn clone(&self) -> Result<Self, AllocError> {
        let signature = self.signature.clone()?;
        Ok(MemberRef { signature, ..*self })
    }
}

impl<'m, S: IsSignature, W: Row<'m, Signature = S>> FromRow<'m, W> for MemberRef<'m, S> {
    ghost TABLE = { table.MemberRef };

    ghost fields = { λ r. Ref r.class ∷ Text r.name.now ∷ Sig (S.body column.MemberRef r.signature) ∷ [] };

    const TABLE: TableId = TableId::MemberRef;

    fn from_row(row: &W) -> MemberRef<'m, S> {
        read_row! {
            row => MemberRef;
            class: reference(0), name: text(1), signature: signature(2, SigKind::MemberRef),
        }
    }
}

impl<'m> Record<'m> for MemberRef<'m> {
    fn cells(&self, alloc: Global) -> Result<Vec<Cell>, AllocError> {
        owned_row!(alloc; Ref self.class, Text self.name, Sig self.signature)
    }
}
