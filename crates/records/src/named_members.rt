ghost use Rattle.table_schema.specs.declared.coded.Coded.TheVariants as coded;
ghost use Rattle.table_schema.specs.declared.table.TableId.TheVariants as table;

use crate::references::ModuleRef;
use std::alloc::AllocError;
use table_schema::Coded;
use type_records::{
    CodedRow, FromRow, IsSignature, MemberRef, MethodDef, Row, TableId, TypeDef, TypeRef, TypeSpec,
};

/// The parent of a member of another module, which a MemberRefParent names (II.24.2.6).
#[derive(Copy, Debug)]
pub enum MemberRefParent<'m, S> {
    /// A type of this module.
    TypeDef(TypeDef<'m>),
    /// A type of another module or assembly.
    TypeRef(TypeRef<'m>),
    /// Another module; the member is global there.
    ModuleRef(ModuleRef<'m>),
    /// A method of this module that is called with variable arguments.
    MethodDef(MethodDef<'m, S>),
    /// A type that is given by a signature.
    TypeSpec(TypeSpec<S>),
}

impl<'m, S: Clone> Clone for MemberRefParent<'m, S> {
    fn clone(&self) -> Result<Self, AllocError> {
        Ok(match self {
            MemberRefParent::TypeDef(row) => MemberRefParent::TypeDef(*row),
            MemberRefParent::TypeRef(row) => MemberRefParent::TypeRef(*row),
            MemberRefParent::ModuleRef(row) => MemberRefParent::ModuleRef(*row),
            MemberRefParent::MethodDef(row) => MemberRefParent::MethodDef(row.clone()?),
            MemberRefParent::TypeSpec(row) => MemberRefParent::TypeSpec(row.clone()?),
        })
    }
}

impl<'m, S: IsSignature, W: Row<'m, Signature = S>> CodedRow<'m, W> for MemberRefParent<'m, S> {
    ghost use Rattle.records.specs.declared.named_members.MemberRefParent.TheVariants as a_parent;

    ghost CODED = { coded.MemberRefParent };

    ghost table_of = { elim [ a_parent.TypeDef r ↦ table.TypeDef | a_parent.TypeRef r ↦ table.TypeRef | a_parent.ModuleRef r ↦ table.ModuleRef | a_parent.MethodDef r ↦ table.MethodDef | a_parent.TypeSpec r ↦ table.TypeSpec ] };

    ghost fields = { elim [
      | a_parent.TypeDef r ↦ ⟦<TypeDef<'m> as FromRow<'m, W>>⟧.fields r
      | a_parent.TypeRef r ↦ ⟦<TypeRef<'m> as FromRow<'m, W>>⟧.fields r
      | a_parent.ModuleRef r ↦ ⟦<ModuleRef<'m> as FromRow<'m, W>>⟧.fields r
      | a_parent.MethodDef r ↦ ⟦<MethodDef<'m, S> as FromRow<'m, W>>⟧.fields r
      | a_parent.TypeSpec r ↦ ⟦<TypeSpec<S> as FromRow<'m, W>>⟧.fields r
    ] };

    const CODED: Coded = Coded::MemberRefParent;

    fn from_row_of(table: TableId, row: &W) -> MemberRefParent<'m, S> {
        match table {
            TableId::TypeDef => MemberRefParent::TypeDef(TypeDef::from_row(row)),
            TableId::TypeRef => MemberRefParent::TypeRef(TypeRef::from_row(row)),
            TableId::ModuleRef => MemberRefParent::ModuleRef(ModuleRef::from_row(row)),
            TableId::MethodDef => MemberRefParent::MethodDef(MethodDef::from_row(row)),
            TableId::TypeSpec => MemberRefParent::TypeSpec(TypeSpec::from_row(row)),
            _ => unreachable!(),
        }
    }
}

/// A method that a MethodDefOrRef names (II.24.2.6).
#[derive(Clone, Copy, Debug)]
pub enum MethodDefOrRef<'m, S> {
    /// A method of this module.
    MethodDef(MethodDef<'m, S>),
    /// A method of another module, or of a type that is given by a signature.
    MemberRef(MemberRef<'m, S>),
}

impl<'m, S: IsSignature, W: Row<'m, Signature = S>> CodedRow<'m, W> for MethodDefOrRef<'m, S> {
    ghost use Rattle.records.specs.declared.named_members.MethodDefOrRef.TheVariants as a_method;

    ghost CODED = { coded.MethodDefOrRef };

    ghost table_of = { elim [ a_method.MethodDef r ↦ table.MethodDef | a_method.MemberRef r ↦ table.MemberRef ] };

    ghost fields = { elim [
      | a_method.MethodDef r ↦ ⟦<MethodDef<'m, S> as FromRow<'m, W>>⟧.fields r
      | a_method.MemberRef r ↦ ⟦<MemberRef<'m, S> as FromRow<'m, W>>⟧.fields r
    ] };

    const CODED: Coded = Coded::MethodDefOrRef;

    fn from_row_of(table: TableId, row: &W) -> MethodDefOrRef<'m, S> {
        match table {
            TableId::MethodDef => MethodDefOrRef::MethodDef(MethodDef::from_row(row)),
            TableId::MemberRef => MethodDefOrRef::MemberRef(MemberRef::from_row(row)),
            _ => unreachable!(),
        }
    }
}

/// The constructor of a custom attribute, which a CustomAttributeType names (II.24.2.6).
#[derive(Clone, Copy, Debug)]
pub enum CustomAttributeType<'m, S> {
    /// A constructor of this module.
    MethodDef(MethodDef<'m, S>),
    /// A constructor of another module, or of a type that is given by a signature.
    MemberRef(MemberRef<'m, S>),
}

impl<'m, S: IsSignature, W: Row<'m, Signature = S>> CodedRow<'m, W> for CustomAttributeType<'m, S> {
    ghost use Rattle.records.specs.declared.named_members.CustomAttributeType.TheVariants as a_constructor;

    ghost CODED = { coded.CustomAttributeType };

    ghost table_of = { elim [ a_constructor.MethodDef r ↦ table.MethodDef | a_constructor.MemberRef r ↦ table.MemberRef ] };

    ghost fields = { elim [
      | a_constructor.MethodDef r ↦ ⟦<MethodDef<'m, S> as FromRow<'m, W>>⟧.fields r
      | a_constructor.MemberRef r ↦ ⟦<MemberRef<'m, S> as FromRow<'m, W>>⟧.fields r
    ] };

    const CODED: Coded = Coded::CustomAttributeType;

    fn from_row_of(table: TableId, row: &W) -> CustomAttributeType<'m, S> {
        match table {
            TableId::MethodDef => CustomAttributeType::MethodDef(MethodDef::from_row(row)),
            TableId::MemberRef => CustomAttributeType::MemberRef(MemberRef::from_row(row)),
            _ => unreachable!(),
        }
    }
}

/// The owner of generic parameters, which a TypeOrMethodDef names (II.24.2.6).
#[derive(Copy, Debug)]
pub enum TypeOrMethodDef<'m, S> {
    /// A type of this module.
    TypeDef(TypeDef<'m>),
    /// A method of this module.
    MethodDef(MethodDef<'m, S>),
}

impl<'m, S: Clone> Clone for TypeOrMethodDef<'m, S> {
    fn clone(&self) -> Result<Self, AllocError> {
        Ok(match self {
            TypeOrMethodDef::TypeDef(row) => TypeOrMethodDef::TypeDef(*row),
            TypeOrMethodDef::MethodDef(row) => TypeOrMethodDef::MethodDef(row.clone()?),
        })
    }
}

impl<'m, S: IsSignature, W: Row<'m, Signature = S>> CodedRow<'m, W> for TypeOrMethodDef<'m, S> {
    ghost use Rattle.records.specs.declared.named_members.TypeOrMethodDef.TheVariants as an_owner;

    ghost CODED = { coded.TypeOrMethodDef };

    ghost table_of = { elim [ an_owner.TypeDef r ↦ table.TypeDef | an_owner.MethodDef r ↦ table.MethodDef ] };

    ghost fields = { elim [
      | an_owner.TypeDef r ↦ ⟦<TypeDef<'m> as FromRow<'m, W>>⟧.fields r
      | an_owner.MethodDef r ↦ ⟦<MethodDef<'m, S> as FromRow<'m, W>>⟧.fields r
    ] };

    const CODED: Coded = Coded::TypeOrMethodDef;

    fn from_row_of(table: TableId, row: &W) -> TypeOrMethodDef<'m, S> {
        match table {
            TableId::TypeDef => TypeOrMethodDef::TypeDef(TypeDef::from_row(row)),
            TableId::MethodDef => TypeOrMethodDef::MethodDef(MethodDef::from_row(row)),
            _ => unreachable!(),
        }
    }
}
