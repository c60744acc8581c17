ghost use Rattle.std.specs.Prelude.{◌≡◌, [], ◌∷◌, IfOk};
ghost use Rattle.table_schema.specs.declared.table.TableId.TheVariants as table;
ghost use Rattle.table_schema.specs.declared.column.SigKind.TheVariants as column;
ghost use Rattle.metadata.specs.Cell.{Number, Text, Ref, Sig};
ghost use Rattle.tables.specs.Said.{all_said};

use crate::record::{FromRow, Record};
use crate::row::Row;
use crate::signature::IsSignature;
use crate::{owned_row, read_row};
use std::alloc::{AllocError, Global};
use table_schema::{SigKind, TableId};
use tables::{Cell, Signature, Token};

/// A generic parameter of a type or method (II.22.20).
#[derive(Clone, Copy, Debug, PartialEq, Eq)]
pub struct GenericParam<'m> {
    /// Its index among the parameters of its owner, counted from 0.
    pub number: u32,
    /// GenericParamAttributes (II.23.1.7).
    pub flags: u32,
    /// The TypeDef or MethodDef that it is a parameter of.
    pub owner: Option<Token>,
    /// Its name.
    pub name: &'m str,
}

impl<'m, W: Row<'m>> FromRow<'m, W> for GenericParam<'m> {
    ghost TABLE = { table.GenericParam };

    ghost fields = { λ r. Number r.number ∷ Number r.flags ∷ Ref r.owner ∷ Text r.name.now ∷ [] };

    const TABLE: TableId = TableId::GenericParam;

    fn from_row(row: &W) -> GenericParam<'m> {
        read_row! {
            row => GenericParam;
            number: number(0), flags: number(1), owner: reference(2), name: text(3),
        }
    }
}

impl<'m> Record<'m> for GenericParam<'m> {
    fn cells(&self, alloc: Global) -> Result<Vec<Cell>, AllocError> {
        owned_row!(alloc; Number self.number, Number self.flags, Ref self.owner, Text self.name)
    }
}

/// A constraint on a generic parameter (II.22.21).
#[derive(Clone, Copy, Debug, PartialEq, Eq)]
pub struct GenericParamConstraint {
    /// The parameter, in GenericParam.
    pub owner: Option<Token>,
    /// The type that it must derive from or implement: a TypeDef, TypeRef or TypeSpec.
    pub constraint: Option<Token>,
}

impl<'m, W: Row<'m>> FromRow<'m, W> for GenericParamConstraint {
    ghost TABLE = { table.GenericParamConstraint };

    ghost fields = { λ r. Ref r.owner ∷ Ref r.constraint ∷ [] };

    const TABLE: TableId = TableId::GenericParamConstraint;

    fn from_row(row: &W) -> GenericParamConstraint {
        read_row!(row => GenericParamConstraint; owner: reference(0), constraint: reference(1))
    }
}

impl<'m> Record<'m> for GenericParamConstraint {
    fn cells(&self, alloc: Global) -> Result<Vec<Cell>, AllocError>
        ensures { IfOk result (λ cells. all_said cells.items ≡ Ref self.now.owner ∷ Ref self.now.constraint ∷ []) }
    {
        owned_row!(alloc; Ref self.owner, Ref self.constraint)
    }
}

/// An instance of a generic method (II.22.29).
#[derive(Clone, Copy, Debug, PartialEq, Eq)]
pub struct MethodSpec<S> {
    /// The generic method: a MethodDef or MemberRef.
    pub method: Option<Token>,
    /// Its arguments (II.23.2.15).
    pub instantiation: S,
}

impl<'m, S: IsSignature, W: Row<'m, Signature = S>> FromRow<'m, W> for MethodSpec<S> {
    ghost TABLE = { table.MethodSpec };

    ghost fields = { λ r. Ref r.method ∷ Sig (S.body column.Instance r.instantiation) ∷ [] };

    const TABLE: TableId = TableId::MethodSpec;

    fn from_row(row: &W) -> MethodSpec<S> {
        read_row! {
            row => MethodSpec;
            method: reference(0), instantiation: signature(1, SigKind::Instance),
        }
    }
}

impl<'m> Record<'m> for MethodSpec<&'m Signature> {
    fn cells(&self, alloc: Global) -> Result<Vec<Cell>, AllocError> {
        owned_row!(alloc; Ref self.method, Sig self.instantiation)
    }
}
