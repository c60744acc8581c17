ghost use Rattle.table_schema.specs.declared.coded.Coded.TheVariants as coded;
ghost use Rattle.table_schema.specs.declared.table.TableId.TheVariants as table;

use crate::files::{ExportedType, File};
use crate::references::{AssemblyRef, ModuleRef};
use std::alloc::AllocError;
use table_schema::Coded;
use type_records::{
    CodedRow, FromRow, IsSignature, Module, Row, TableId, TypeDef, TypeRef, TypeSpec,
};

/// A type that a TypeDefOrRef names (II.24.2.6).
#[derive(Copy, Debug)]
pub enum TypeDefOrRef<'m, S> {
    /// A type of this module.
    TypeDef(TypeDef<'m>),
    /// A type of another module or assembly.
    TypeRef(TypeRef<'m>),
    /// A type that is given by a signature.
    TypeSpec(TypeSpec<S>),
}

impl<'m, S: Clone> Clone for TypeDefOrRef<'m, S> {
    fn clone(&self) -> Result<Self, AllocError> {
        Ok(match self {
            TypeDefOrRef::TypeDef(row) => TypeDefOrRef::TypeDef(*row),
            TypeDefOrRef::TypeRef(row) => TypeDefOrRef::TypeRef(*row),
            TypeDefOrRef::TypeSpec(row) => TypeDefOrRef::TypeSpec(row.clone()?),
        })
    }
}

impl<'m, S: IsSignature, W: Row<'m, Signature = S>> CodedRow<'m, W> for TypeDefOrRef<'m, S> {
    ghost use Rattle.records.specs.declared.named_types.TypeDefOrRef.TheVariants as a_type;

    ghost CODED = { coded.TypeDefOrRef };

    ghost table_of = { elim [ a_type.TypeDef r ↦ table.TypeDef | a_type.TypeRef r ↦ table.TypeRef | a_type.TypeSpec r ↦ table.TypeSpec ] };

    ghost fields = { elim [
      | a_type.TypeDef r ↦ ⟦<TypeDef<'m> as FromRow<'m, W>>⟧.fields r
      | a_type.TypeRef r ↦ ⟦<TypeRef<'m> as FromRow<'m, W>>⟧.fields r
      | a_type.TypeSpec r ↦ ⟦<TypeSpec<S> as FromRow<'m, W>>⟧.fields r
    ] };

    const CODED: Coded = Coded::TypeDefOrRef;

    fn from_row_of(table: TableId, row: &W) -> TypeDefOrRef<'m, S> {
        match table {
            TableId::TypeDef => TypeDefOrRef::TypeDef(TypeDef::from_row(row)),
            TableId::TypeRef => TypeDefOrRef::TypeRef(TypeRef::from_row(row)),
            TableId::TypeSpec => TypeDefOrRef::TypeSpec(TypeSpec::from_row(row)),
            _ => unreachable!(),
        }
    }
}

/// The scope of a type of another module, which a ResolutionScope names (II.24.2.6).
#[derive(Clone, Copy, Debug)]
pub enum ResolutionScope<'m> {
    /// This module.
    Module(Module<'m>),
    /// Another module.
    ModuleRef(ModuleRef<'m>),
    /// Another assembly.
    AssemblyRef(AssemblyRef<'m>),
    /// The type that encloses the type.
    TypeRef(TypeRef<'m>),
}

impl<'m, W: Row<'m>> CodedRow<'m, W> for ResolutionScope<'m> {
    ghost use Rattle.records.specs.declared.named_types.ResolutionScope.TheVariants as a_scope;

    ghost CODED = { coded.ResolutionScope };

    ghost table_of = { elim [ a_scope.Module r ↦ table.Module | a_scope.ModuleRef r ↦ table.ModuleRef | a_scope.AssemblyRef r ↦ table.AssemblyRef | a_scope.TypeRef r ↦ table.TypeRef ] };

    ghost fields = { elim [
      | a_scope.Module r ↦ ⟦<Module<'m> as FromRow<'m, W>>⟧.fields r
      | a_scope.ModuleRef r ↦ ⟦<ModuleRef<'m> as FromRow<'m, W>>⟧.fields r
      | a_scope.AssemblyRef r ↦ ⟦<AssemblyRef<'m> as FromRow<'m, W>>⟧.fields r
      | a_scope.TypeRef r ↦ ⟦<TypeRef<'m> as FromRow<'m, W>>⟧.fields r
    ] };

    const CODED: Coded = Coded::ResolutionScope;

    fn from_row_of(table: TableId, row: &W) -> ResolutionScope<'m> {
        match table {
            TableId::Module => ResolutionScope::Module(Module::from_row(row)),
            TableId::ModuleRef => ResolutionScope::ModuleRef(ModuleRef::from_row(row)),
            TableId::AssemblyRef => ResolutionScope::AssemblyRef(AssemblyRef::from_row(row)),
            TableId::TypeRef => ResolutionScope::TypeRef(TypeRef::from_row(row)),
            _ => unreachable!(),
        }
    }
}

/// The location of an exported type or a resource, which an Implementation names (II.24.2.6).
#[derive(Clone, Copy, Debug)]
pub enum Implementation<'m> {
    /// Another file of this assembly.
    File(File<'m>),
    /// Another assembly.
    AssemblyRef(AssemblyRef<'m>),
    /// The exported type that encloses the type.
    ExportedType(ExportedType<'m>),
}

impl<'m, W: Row<'m>> CodedRow<'m, W> for Implementation<'m> {
    ghost use Rattle.records.specs.declared.named_types.Implementation.TheVariants as a_cell_index;

    ghost CODED = { coded.Implementation };

    ghost table_of = { elim [ a_cell_index.File r ↦ table.File | a_cell_index.AssemblyRef r ↦ table.AssemblyRef | a_cell_index.ExportedType r ↦ table.ExportedType ] };

    ghost fields = { elim [
      | a_cell_index.File r ↦ ⟦<File<'m> as FromRow<'m, W>>⟧.fields r
      | a_cell_index.AssemblyRef r ↦ ⟦<AssemblyRef<'m> as FromRow<'m, W>>⟧.fields r
      | a_cell_index.ExportedType r ↦ ⟦<ExportedType<'m> as FromRow<'m, W>>⟧.fields r
    ] };

    const CODED: Coded = Coded::Implementation;

    fn from_row_of(table: TableId, row: &W) -> Implementation<'m> {
        match table {
            TableId::File => Implementation::File(File::from_row(row)),
            TableId::AssemblyRef => Implementation::AssemblyRef(AssemblyRef::from_row(row)),
            TableId::ExportedType => Implementation::ExportedType(ExportedType::from_row(row)),
            _ => unreachable!(),
        }
    }
}
