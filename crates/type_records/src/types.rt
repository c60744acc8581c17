ghost use Rattle.std.specs.Prelude.{◌≡◌, [], ◌∷◌, Some, IfOk};
ghost use Rattle.table_schema.specs.declared.table.TableId.TheVariants as table;
ghost use Rattle.table_schema.specs.declared.column.SigKind.TheVariants as column;
ghost use Rattle.metadata.specs.Cell.{Number, Text, Guid, Ref, Start, Sig};
ghost use Rattle.tables.specs.Said.{all_said};
ghost use Rattle.metadata.specs.Names.{full_name};

use crate::record::{FromRow, Record};
use crate::row::Row;
use crate::signature::IsSignature;
use crate::{owned_row, read_row};
use std::alloc::{AllocError, Global};
use std::fmt;
use table_schema::{SigKind, TableId};
use tables::{Cell, Signature, Token};

/// The namespace and the name of a type. It is shown as its full name: the namespace and a dot, unless the namespace is
/// empty, then the name.
#[derive(Clone, Copy)]
pub struct FullName<'m>(pub &'m str, pub &'m str);

impl fmt::Display for FullName<'_> {
    ghost output = { λ r. Some (full_name r.0.now r.1.now) };

    fn fmt<W: fmt::Write>(&self, f: &mut fmt::Formatter<W>) -> fmt::Result {
        let FullName(namespace, name) = *self;
        if namespace.is_empty() {
            return write!(f, "{name}");
        }
        write!(f, "{namespace}.{name}")
    }
}

/// This module, the only row of its table (II.22.30).
#[derive(Clone, Copy, Debug, PartialEq, Eq)]
pub struct Module<'m> {
    /// Reserved: 0.
    pub generation: u32,
    /// The module's name, with its extension.
    pub name: &'m str,
    /// A GUID that identifies this version of the module.
    pub mvid: Option<[u8; 16]>,
    /// Reserved: null.
    pub enc_id: Option<[u8; 16]>,
    /// Reserved: null.
    pub enc_base_id: Option<[u8; 16]>,
}

impl<'m, W: Row<'m>> FromRow<'m, W> for Module<'m> {
    ghost TABLE = { table.Module };

    ghost fields = { λ r. Number r.generation ∷ Text r.name.now ∷ Guid r.mvid ∷ Guid r.enc_id ∷ Guid r.enc_base_id
        ∷ [] };

    const TABLE: TableId = TableId::Module;

    fn from_row(row: &W) -> Module<'m> {
        read_row! {
            row => Module;
            generation: number(0), name: text(1), mvid: guid(2), enc_id: guid(3),
            enc_base_id: guid(4),
        }
    }
}

impl<'m> Record<'m> for Module<'m> {
    fn cells(&self, alloc: Global) -> Result<Vec<Cell>, AllocError> {
        owned_row! {
            alloc;
            Number self.generation, Text self.name, Guid self.mvid, Guid self.enc_id,
            Guid self.enc_base_id,
        }
    }
}

/// A type of another module or assembly (II.22.38).
#[derive(Clone, Copy, Debug, PartialEq, Eq)]
pub struct TypeRef<'m> {
    /// The scope of the type: this module, a ModuleRef, an AssemblyRef, or the TypeRef that encloses it. If it is null,
    /// a row of ExportedType gives the scope.
    pub resolution_scope: Option<Token>,
    /// The type's name.
    pub type_name: &'m str,
    /// Its namespace; empty if it has none.
    pub type_namespace: &'m str,
}

impl<'m, W: Row<'m>> FromRow<'m, W> for TypeRef<'m> {
    ghost TABLE = { table.TypeRef };

    ghost fields = { λ r. Ref r.resolution_scope ∷ Text r.type_name.now ∷ Text r.type_namespace.now ∷ [] };

    const TABLE: TableId = TableId::TypeRef;

    fn from_row(row: &W) -> TypeRef<'m> {
        read_row! {
            row => TypeRef;
            resolution_scope: reference(0), type_name: text(1), type_namespace: text(2),
        }
    }
}

impl<'m> Record<'m> for TypeRef<'m> {
    fn cells(&self, alloc: Global) -> Result<Vec<Cell>, AllocError> {
        owned_row!(alloc; Ref self.resolution_scope, Text self.type_name, Text self.type_namespace)
    }
}

/// The full name of the type: the namespace and a dot, unless the namespace is empty, then the name.
impl fmt::Display for TypeRef<'_> {
    ghost output = { λ r. Some (full_name r.type_namespace.now r.type_name.now) };

    fn fmt<W: fmt::Write>(&self, f: &mut fmt::Formatter<W>) -> fmt::Result {
        FullName(self.type_namespace, self.type_name).fmt(f)
    }
}

/// A type of this module (II.22.37).
#[derive(Clone, Copy, Debug, PartialEq, Eq)]
pub struct TypeDef<'m> {
    /// TypeAttributes (II.23.1.15).
    pub flags: u32,
    /// The type's name.
    pub type_name: &'m str,
    /// Its namespace; empty if it has none.
    pub type_namespace: &'m str,
    /// The type that it extends; null for `System.Object`, an interface and `<Module>`.
    pub extends: Option<Token>,
    /// The first of its fields, in Field.
    pub field_list: u32,
    /// The first of its methods, in MethodDef.
    pub method_list: u32,
}

impl<'m, W: Row<'m>> FromRow<'m, W> for TypeDef<'m> {
    ghost TABLE = { table.TypeDef };

    ghost fields = { λ r. Number r.flags ∷ Text r.type_name.now ∷ Text r.type_namespace.now ∷ Ref r.extends
        ∷ Start r.field_list ∷ Start r.method_list ∷ [] };

    const TABLE: TableId = TableId::TypeDef;

    fn from_row(row: &W) -> TypeDef<'m> {
        read_row! {
            row => TypeDef;
            flags: number(0), type_name: text(1), type_namespace: text(2), extends: reference(3),
            field_list: start(4), method_list: start(5),
        }
    }
}

impl<'m> Record<'m> for TypeDef<'m> {
    fn cells(&self, alloc: Global) -> Result<Vec<Cell>, AllocError> {
        owned_row! {
            alloc;
            Number self.flags, Text self.type_name, Text self.type_namespace, Ref self.extends,
            Start self.field_list, Start self.method_list,
        }
    }
}

/// The full name of the type: the namespace and a dot, unless the namespace is empty, then the name.
impl fmt::Display for TypeDef<'_> {
    ghost output = { λ r. Some (full_name r.type_namespace.now r.type_name.now) };

    fn fmt<W: fmt::Write>(&self, f: &mut fmt::Formatter<W>) -> fmt::Result {
        FullName(self.type_namespace, self.type_name).fmt(f)
    }
}

/// An interface that a type of this module implements (II.22.23).
#[derive(Clone, Copy, Debug, PartialEq, Eq)]
pub struct InterfaceImpl {
    /// The type, in TypeDef.
    pub class: Option<Token>,
    /// The interface: a TypeDef, TypeRef or TypeSpec.
    pub interface: Option<Token>,
}

impl<'m, W: Row<'m>> FromRow<'m, W> for InterfaceImpl {
    ghost TABLE = { table.InterfaceImpl };

    ghost fields = { λ r. Ref r.class ∷ Ref r.interface ∷ [] };

    const TABLE: TableId = TableId::InterfaceImpl;

    fn from_row(row: &W) -> InterfaceImpl {
        read_row!(row => InterfaceImpl; class: reference(0), interface: reference(1))
    }
}

impl<'m> Record<'m> for InterfaceImpl {
    fn cells(&self, alloc: Global) -> Result<Vec<Cell>, AllocError>
        ensures { IfOk result (λ cells. all_said cells.items ≡ Ref self.now.class ∷ Ref self.now.interface ∷ []) }
    {
        owned_row!(alloc; Ref self.class, Ref self.interface)
    }
}

/// A type that is nested in another (II.22.32).
#[derive(Clone, Copy, Debug, PartialEq, Eq)]
pub struct NestedClass {
    /// The type, in TypeDef.
    pub nested_class: Option<Token>,
    /// The type that encloses it, in TypeDef.
    pub enclosing_class: Option<Token>,
}

impl<'m, W: Row<'m>> FromRow<'m, W> for NestedClass {
    ghost TABLE = { table.NestedClass };

    ghost fields = { λ r. Ref r.nested_class ∷ Ref r.enclosing_class ∷ [] };

    const TABLE: TableId = TableId::NestedClass;

    fn from_row(row: &W) -> NestedClass {
        read_row!(row => NestedClass; nested_class: reference(0), enclosing_class: reference(1))
    }
}

impl<'m> Record<'m> for NestedClass {
    fn cells(&self, alloc: Global) -> Result<Vec<Cell>, AllocError>
        ensures { IfOk result (λ cells. all_said cells.items ≡ Ref self.now.nested_class ∷ Ref self.now.enclosing_class ∷ []) }
    {
        owned_row!(alloc; Ref self.nested_class, Ref self.enclosing_class)
    }
}

/// The layout of a type in memory (II.22.8).
#[derive(Clone, Copy, Debug, PartialEq, Eq)]
pub struct ClassLayout {
    /// The alignment of its fields in bytes, a power of two up to 128; 0 if the runtime chooses.
    pub packing_size: u32,
    /// Its size in bytes; 0 if the runtime chooses.
    pub class_size: u32,
    /// The type, in TypeDef.
    pub parent: Option<Token>,
}

impl<'m, W: Row<'m>> FromRow<'m, W> for ClassLayout {
    ghost TABLE = { table.ClassLayout };

    ghost fields = { λ r. Number r.packing_size ∷ Number r.class_size ∷ Ref r.parent ∷ [] };

    const TABLE: TableId = TableId::ClassLayout;

    fn from_row(row: &W) -> ClassLayout {
        read_row! {
            row => ClassLayout;
            packing_size: number(0), class_size: number(1), parent: reference(2),
        }
    }
}

impl<'m> Record<'m> for ClassLayout {
    fn cells(&self, alloc: Global) -> Result<Vec<Cell>, AllocError>
        ensures { IfOk result (λ cells. all_said cells.items ≡ Number self.now.packing_size ∷ Number self.now.class_size ∷ Ref self.now.parent ∷ []) }
    {
        owned_row!(alloc; Number self.packing_size, Number self.class_size, Ref self.parent)
    }
}

/// A type that is given by a signature (II.22.39).
#[derive(Clone, Copy, Debug, PartialEq, Eq)]
pub struct TypeSpec<S> {
    /// The type (II.23.2.14).
    pub signature: S,
}

impl<'m, S: IsSignature, W: Row<'m, Signature = S>> FromRow<'m, W> for TypeSpec<S> {
    ghost TABLE = { table.TypeSpec };

    ghost fields = { λ r. Sig (S.body column.TypeSpec r.signature) ∷ [] };

    const TABLE: TableId = TableId::TypeSpec;

    fn from_row(row: &W) -> TypeSpec<S> {
        read_row!(row => TypeSpec; signature: signature(0, SigKind::TypeSpec))
    }
}

impl<'m> Record<'m> for TypeSpec<&'m Signature> {
    fn cells(&self, alloc: Global) -> Result<Vec<Cell>, AllocError> {
        owned_row!(alloc; Sig self.signature)
    }
}
