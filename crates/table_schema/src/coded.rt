ghost use Rattle.std.specs.Prelude.{◌↔◌, Some, IsTrue, Contains};

use crate::table::TableId;

/// A coded index: an index into one of several tables, with a tag that selects the table (II.24.2.6).
#[derive(Clone, Copy, Debug, PartialEq, Eq)]
pub enum Coded {
    /// A type.
    TypeDefOrRef,
    /// A row that can have a constant value.
    HasConstant,
    /// A row that can have a custom attribute.
    HasCustomAttribute,
    /// A row that can be marshalled.
    HasFieldMarshal,
    /// A row that can have a permission set.
    HasDeclSecurity,
    /// The parent of a member reference.
    MemberRefParent,
    /// An event or a property.
    HasSemantics,
    /// A method.
    MethodDefOrRef,
    /// A member that is implemented outside managed code.
    MemberForwarded,
    /// The file, assembly or type that has an exported type or a resource.
    Implementation,
    /// The constructor of a custom attribute.
    CustomAttributeType,
    /// The module, assembly or enclosing type of a type reference.
    ResolutionScope,
    /// A row that can have generic parameters.
    TypeOrMethodDef,
}

/// A list of tables by tag, if every tag is used.
macro_rules! listed {
    ($($table:ident),*) => {
        &[$(Some(TableId::$table)),*]
    };
}

impl Coded {
    ghost use Rattle.std.specs.Prelude.{◌≡◌, ◌≤◌};
    ghost use Rattle.table_schema.specs.CodedIndexes.{tables_of, tag_bits};

    /// The tables by tag, `None` for an unused tag.
    pub fn tables(self) -> &'static [Option<TableId>]
        ensures { result.now ≡ tables_of self }
    {
        match self {
            Coded::TypeDefOrRef => listed!(TypeDef, TypeRef, TypeSpec),
            Coded::HasConstant => listed!(Field, Param, Property),
            Coded::HasCustomAttribute => listed!(
                MethodDef,
                Field,
                TypeRef,
                TypeDef,
                Param,
                InterfaceImpl,
                MemberRef,
                Module,
                DeclSecurity,
                Property,
                Event,
                StandAloneSig,
                ModuleRef,
                TypeSpec,
                Assembly,
                AssemblyRef,
                File,
                ExportedType,
                ManifestResource,
                GenericParam,
                GenericParamConstraint,
                MethodSpec
            ),
            Coded::HasFieldMarshal => listed!(Field, Param),
            Coded::HasDeclSecurity => listed!(TypeDef, MethodDef, Assembly),
            Coded::MemberRefParent => listed!(TypeDef, TypeRef, ModuleRef, MethodDef, TypeSpec),
            Coded::HasSemantics => listed!(Event, Property),
            Coded::MethodDefOrRef => listed!(MethodDef, MemberRef),
            Coded::MemberForwarded => listed!(Field, MethodDef),
            Coded::Implementation => listed!(File, AssemblyRef, ExportedType),
            Coded::CustomAttributeType => &[
                None,
                None,
                Some(TableId::MethodDef),
                Some(TableId::MemberRef),
                None,
            ],
            Coded::ResolutionScope => listed!(Module, ModuleRef, AssemblyRef, TypeRef),
            Coded::TypeOrMethodDef => listed!(TypeDef, MethodDef),
        }
    }

    /// The number of bits of the tag: 1 to 5.
    pub fn tag_bits(self) -> u32
        ensures value { result ≡ tag_bits self }
        ensures some { 1 ≤ result }
        ensures limit { result ≤ 5 }
    {
        match self {
            Coded::HasFieldMarshal
            | Coded::HasSemantics
            | Coded::MethodDefOrRef
            | Coded::MemberForwarded
            | Coded::TypeOrMethodDef => 1,
            Coded::TypeDefOrRef
            | Coded::HasConstant
            | Coded::HasDeclSecurity
            | Coded::Implementation
            | Coded::ResolutionScope => 2,
            Coded::MemberRefParent | Coded::CustomAttributeType => 3,
            Coded::HasCustomAttribute => 5,
        }
    }
}

/// Whether a list of tables contains a table.
pub fn lists(listed: &[Option<TableId>], table: TableId) -> bool
    ensures { IsTrue result ↔ Contains listed.now (Some table) }
{
    listed.contains(&Some(table))
}
