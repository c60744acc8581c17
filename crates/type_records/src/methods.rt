ghost use Rattle.std.specs.Prelude.{◌≡◌, [], ◌∷◌, IfOk};
ghost use Rattle.table_schema.specs.declared.table.TableId.TheVariants as table;
ghost use Rattle.table_schema.specs.declared.column.SigKind.TheVariants as column;
ghost use Rattle.metadata.specs.Cell.{Number, Text, Ref, Start, Sig};
ghost use Rattle.tables.specs.Said.{all_said};

use crate::record::{FromRow, Record};
use crate::row::Row;
use crate::signature::IsSignature;
use crate::{owned_row, read_row};
use std::alloc::{AllocError, Global};
use table_schema::{SigKind, TableId};
use tables::{Cell, Signature, Token};

/// A method of a type of this module (II.22.26).
#[derive(Copy, Debug, PartialEq, Eq)]
pub struct MethodDef<'m, S = &'m Signature> {
    /// The relative virtual address of its body; 0 if it has none.
    pub rva: u32,
    /// MethodImplAttributes (II.23.1.11).
    pub impl_flags: u32,
    /// MethodAttributes (II.23.1.10).
    pub flags: u32,
    /// The method's name.
    pub name: &'m str,
    /// Its signature (II.23.2.1).
    pub signature: S,
    /// The first of its parameters, in Param.
    pub param_list: u32,
}

impl<'m, S: Clone> Clone for MethodDef<'m, S> {
    fn clone(&self) -> Result<Self, AllocError> {
        let signature = self.signature.clone()?;
        Ok(MethodDef { signature, ..*self })
    }
}

impl<'m, S: IsSignature, W: Row<'m, Signature = S>> FromRow<'m, W> for MethodDef<'m, S> {
    ghost TABLE = { table.MethodDef };

    ghost fields = { λ r. Number r.rva ∷ Number r.impl_flags ∷ Number r.flags ∷ Text r.name.now
        ∷ Sig (S.body column.MethodDef r.signature) ∷ Start r.param_list ∷ [] };

    const TABLE: TableId = TableId::MethodDef;

    fn from_row(row: &W) -> MethodDef<'m, S> {
        read_row! {
            row => MethodDef;
            rva: number(0), impl_flags: number(1), flags: number(2), name: text(3),
            signature: signature(4, SigKind::MethodDef), param_list: start(5),
        }
    }
}

impl<'m> Record<'m> for MethodDef<'m> {
    fn cells(&self, alloc: Global) -> Result<Vec<Cell>, AllocError> {
        owned_row! {
            alloc;
            Number self.rva, Number self.impl_flags, Number self.flags, Text self.name,
            Sig self.signature, Start self.param_list,
        }
    }
}

/// A parameter of a method of this module (II.22.33).
#[derive(Clone, Copy, Debug, PartialEq, Eq)]
pub struct Param<'m> {
    /// ParamAttributes (II.23.1.13).
    pub flags: u32,
    /// Its index among the parameters, counted from 1; 0 is the return value.
    pub sequence: u32,
    /// Its name; empty if it has none.
    pub name: &'m str,
}

impl<'m, W: Row<'m>> FromRow<'m, W> for Param<'m> {
    ghost TABLE = { table.Param };

    ghost fields = { λ r. Number r.flags ∷ Number r.sequence ∷ Text r.name.now ∷ [] };

    const TABLE: TableId = TableId::Param;

    fn from_row(row: &W) -> Param<'m> {
        read_row!(row => Param; flags: number(0), sequence: number(1), name: text(2))
    }
}

impl<'m> Record<'m> for Param<'m> {
    fn cells(&self, alloc: Global) -> Result<Vec<Cell>, AllocError> {
        owned_row!(alloc; Number self.flags, Number self.sequence, Text self.name)
    }
}

/// A method that implements a method with another name (II.22.27).
#[derive(Clone, Copy, Debug, PartialEq, Eq)]
pub struct MethodImpl {
    /// The type that declares the implementation, in TypeDef.
    pub class: Option<Token>,
    /// The method that implements: a MethodDef or MemberRef.
    pub method_body: Option<Token>,
    /// The method that it implements: a MethodDef or MemberRef.
    pub method_declaration: Option<Token>,
}

impl<'m, W: Row<'m>> FromRow<'m, W> for MethodImpl {
    ghost TABLE = { table.MethodImpl };

    ghost fields = { λ r. Ref r.class ∷ Ref r.method_body ∷ Ref r.method_declaration ∷ [] };

    const TABLE: TableId = TableId::MethodImpl;

    fn from_row(row: &W) -> MethodImpl {
        read_row! {
            row => MethodImpl;
            class: reference(0), method_body: reference(1), method_declaration: reference(2),
        }
    }
}

impl<'m> Record<'m> for MethodImpl {
    fn cells(&self, alloc: Global) -> Result<Vec<Cell>, AllocError>
        ensures { IfOk result (λ cells. all_said cells.items ≡ Ref self.now.class ∷ Ref self.now.method_body ∷ Ref self.now.method_declaration ∷ []) }
    {
        owned_row!(alloc; Ref self.class, Ref self.method_body, Ref self.method_declaration)
    }
}

/// A method that belongs to an event or property (II.22.28).
#[derive(Clone, Copy, Debug, PartialEq, Eq)]
pub struct MethodSemantics {
    /// MethodSemanticsAttributes (II.23.1.12): the role of the method.
    pub semantics: u32,
    /// The method, in MethodDef.
    pub method: Option<Token>,
    /// The Event or Property.
    pub association: Option<Token>,
}

impl<'m, W: Row<'m>> FromRow<'m, W> for MethodSemantics {
    ghost TABLE = { table.MethodSemantics };

    ghost fields = { λ r. Number r.semantics ∷ Ref r.method ∷ Ref r.association ∷ [] };

    const TABLE: TableId = TableId::MethodSemantics;

    fn from_row(row: &W) -> MethodSemantics {
        read_row! {
            row => MethodSemantics;
            semantics: number(0), method: reference(1), association: reference(2),
        }
    }
}

impl<'m> Record<'m> for MethodSemantics {
    fn cells(&self, alloc: Global) -> Result<Vec<Cell>, AllocError>
        ensures { IfOk result (λ cells. all_said cells.items ≡ Number self.now.semantics ∷ Ref self.now.method ∷ Ref self.now.association ∷ []) }
    {
        owned_row!(alloc; Number self.semantics, Ref self.method, Ref self.association)
    }
}

/// A signature that no other table refers to (II.22.36).
#[derive(Clone, Copy, Debug, PartialEq, Eq)]
pub struct StandAloneSig<S> {
    /// The local variables of a method, or the signature of a method that is called by its address
    /// (II.23.2.3, II.23.2.6).
    pub signature: S,
}

impl<'m, S: IsSignature, W: Row<'m, Signature = S>> FromRow<'m, W> for StandAloneSig<S> {
    ghost TABLE = { table.StandAloneSig };

    ghost fields = { λ r. Sig (S.body column.StandAlone r.signature) ∷ [] };

    const TABLE: TableId = TableId::StandAloneSig;

    fn from_row(row: &W) -> StandAloneSig<S> {
        read_row!(row => StandAloneSig; signature: signature(0, SigKind::StandAlone))
    }
}

impl<'m> Record<'m> for StandAloneSig<&'m Signature> {
    fn cells(&self, alloc: Global) -> Result<Vec<Cell>, AllocError> {
        owned_row!(alloc; Sig self.signature)
    }
}
