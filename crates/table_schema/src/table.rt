ghost use Rattle.std.specs.Prelude.{Some};
ghost use Rattle.std.specs.Fmt.{padded};
ghost use Rattle.table_schema.specs.Tables.{table_name};

use std::fmt;

/// A metadata table (II.22). Tables are ordered by their numbers.
#[derive(Clone, Copy, Debug, PartialEq, Eq, PartialOrd, Ord, Hash)]
pub enum TableId {
    /// This module, one row (II.22.30).
    Module,
    /// Types of other modules (II.22.38).
    TypeRef,
    /// Types of this module (II.22.37).
    TypeDef,
    /// Fields of these types (II.22.15).
    Field,
    /// Methods of these types (II.22.26).
    MethodDef,
    /// Parameters of these methods (II.22.33).
    Param,
    /// Interfaces that types implement (II.22.23).
    InterfaceImpl,
    /// Fields and methods of other modules (II.22.25).
    MemberRef,
    /// Constant values of fields, parameters and properties (II.22.9).
    Constant,
    /// Custom attributes and the rows that have them (II.22.10).
    CustomAttribute,
    /// How fields and parameters are marshalled (II.22.17).
    FieldMarshal,
    /// Permission sets of types, methods and the assembly (II.22.11).
    DeclSecurity,
    /// Packing and size of types (II.22.8).
    ClassLayout,
    /// Offsets of fields in their types (II.22.16).
    FieldLayout,
    /// Signatures that no other row has (II.22.36).
    StandAloneSig,
    /// The events of each type (II.22.12).
    EventMap,
    /// Events of types (II.22.13).
    Event,
    /// The properties of each type (II.22.35).
    PropertyMap,
    /// Properties of types (II.22.34).
    Property,
    /// Methods that belong to events and properties (II.22.28).
    MethodSemantics,
    /// Methods that implement other methods (II.22.27).
    MethodImpl,
    /// Other modules (II.22.31).
    ModuleRef,
    /// Types that a signature describes (II.22.39).
    TypeSpec,
    /// Methods that are implemented outside managed code (II.22.22).
    ImplMap,
    /// Addresses of the initial values of fields (II.22.18).
    FieldRVA,
    /// This assembly, at most one row (II.22.2).
    Assembly,
    /// Processors of this assembly, unused (II.22.4).
    AssemblyProcessor,
    /// Operating systems of this assembly, unused (II.22.3).
    AssemblyOS,
    /// Other assemblies (II.22.5).
    AssemblyRef,
    /// Processors of other assemblies, unused (II.22.7).
    AssemblyRefProcessor,
    /// Operating systems of other assemblies, unused (II.22.6).
    AssemblyRefOS,
    /// Other files of this assembly (II.22.19).
    File,
    /// Types that this assembly exports from its other modules (II.22.14).
    ExportedType,
    /// Resources of this assembly (II.22.24).
    ManifestResource,
    /// Types that are nested in others (II.22.32).
    NestedClass,
    /// Generic parameters of types and methods (II.22.20).
    GenericParam,
    /// Instances of generic methods (II.22.29).
    MethodSpec,
    /// Constraints on generic parameters (II.22.21).
    GenericParamConstraint,
}

/// The tables in the order of their numbers.
static TABLES: [TableId; 38] = [
    TableId::Module,
    TableId::TypeRef,
    TableId::TypeDef,
    TableId::Field,
    TableId::MethodDef,
    TableId::Param,
    TableId::InterfaceImpl,
    TableId::MemberRef,
    TableId::Constant,
    TableId::CustomAttribute,
    TableId::FieldMarshal,
    TableId::DeclSecurity,
    TableId::ClassLayout,
    TableId::FieldLayout,
    TableId::StandAloneSig,
    TableId::EventMap,
    TableId::Event,
    TableId::PropertyMap,
    TableId::Property,
    TableId::MethodSemantics,
    TableId::MethodImpl,
    TableId::ModuleRef,
    TableId::TypeSpec,
    TableId::ImplMap,
    TableId::FieldRVA,
    TableId::Assembly,
    TableId::AssemblyProcessor,
    TableId::AssemblyOS,
    TableId::AssemblyRef,
    TableId::AssemblyRefProcessor,
    TableId::AssemblyRefOS,
    TableId::File,
    TableId::ExportedType,
    TableId::ManifestResource,
    TableId::NestedClass,
    TableId::GenericParam,
    TableId::MethodSpec,
    TableId::GenericParamConstraint,
];

impl TableId {
    ghost use Rattle.std.specs.Prelude.{◌≡◌, ◌<◌, IfSome, Some, length};
    ghost use Rattle.table_schema.specs.declared.table.TableId.{TableId as Table};
    ghost use Rattle.table_schema.specs.Tables.{tables, table_number, table_name, table_index_of};

    /// All tables, in the order of their numbers.
    #[tactic(auto, unfolding(crate::specs::Tables::tables))]
    pub fn all() -> &'static [TableId]
        ensures value { result.now ≡ tables }
        ensures count { length result.now ≡ 38 }
    {
        &TABLES
    }

    /// The table's number, which tokens and the bits of Valid and Sorted use (II.22).
    pub fn number(self) -> u8
        ensures value { result ≡ table_number self }
        ensures limit { result < 45 }
    {
        match self {
            TableId::Module => 0x00,
            TableId::TypeRef => 0x01,
            TableId::TypeDef => 0x02,
            TableId::Field => 0x04,
            TableId::MethodDef => 0x06,
            TableId::Param => 0x08,
            TableId::InterfaceImpl => 0x09,
            TableId::MemberRef => 0x0A,
            TableId::Constant => 0x0B,
            TableId::CustomAttribute => 0x0C,
            TableId::FieldMarshal => 0x0D,
            TableId::DeclSecurity => 0x0E,
            TableId::ClassLayout => 0x0F,
            TableId::FieldLayout => 0x10,
            TableId::StandAloneSig => 0x11,
            TableId::EventMap => 0x12,
            TableId::Event => 0x14,
            TableId::PropertyMap => 0x15,
            TableId::Property => 0x17,
            TableId::MethodSemantics => 0x18,
            TableId::MethodImpl => 0x19,
            TableId::ModuleRef => 0x1A,
            TableId::TypeSpec => 0x1B,
            TableId::ImplMap => 0x1C,
            TableId::FieldRVA => 0x1D,
            TableId::Assembly => 0x20,
            TableId::AssemblyProcessor => 0x21,
            TableId::AssemblyOS => 0x22,
            TableId::AssemblyRef => 0x23,
            TableId::AssemblyRefProcessor => 0x24,
            TableId::AssemblyRefOS => 0x25,
            TableId::File => 0x26,
            TableId::ExportedType => 0x27,
            TableId::ManifestResource => 0x28,
            TableId::NestedClass => 0x29,
            TableId::GenericParam => 0x2A,
            TableId::MethodSpec => 0x2B,
            TableId::GenericParamConstraint => 0x2C,
        }
    }

    /// The table with a number, `None` if no table has it.
    pub fn from_number(number: u8) -> Option<TableId>
        ensures sound { IfSome result (λ table. table_number table ≡ number) }
        ensures complete { (table : Table) → table_number table ≡ number → result ≡ Some table }
    {
        match number {
            0x00 => Some(TableId::Module),
            0x01 => Some(TableId::TypeRef),
            0x02 => Some(TableId::TypeDef),
            0x04 => Some(TableId::Field),
            0x06 => Some(TableId::MethodDef),
            0x08 => Some(TableId::Param),
            0x09 => Some(TableId::InterfaceImpl),
            0x0A => Some(TableId::MemberRef),
            0x0B => Some(TableId::Constant),
            0x0C => Some(TableId::CustomAttribute),
            0x0D => Some(TableId::FieldMarshal),
            0x0E => Some(TableId::DeclSecurity),
            0x0F => Some(TableId::ClassLayout),
            0x10 => Some(TableId::FieldLayout),
            0x11 => Some(TableId::StandAloneSig),
            0x12 => Some(TableId::EventMap),
            0x14 => Some(TableId::Event),
            0x15 => Some(TableId::PropertyMap),
            0x17 => Some(TableId::Property),
            0x18 => Some(TableId::MethodSemantics),
            0x19 => Some(TableId::MethodImpl),
            0x1A => Some(TableId::ModuleRef),
            0x1B => Some(TableId::TypeSpec),
            0x1C => Some(TableId::ImplMap),
            0x1D => Some(TableId::FieldRVA),
            0x20 => Some(TableId::Assembly),
            0x21 => Some(TableId::AssemblyProcessor),
            0x22 => Some(TableId::AssemblyOS),
            0x23 => Some(TableId::AssemblyRef),
            0x24 => Some(TableId::AssemblyRefProcessor),
            0x25 => Some(TableId::AssemblyRefOS),
            0x26 => Some(TableId::File),
            0x27 => Some(TableId::ExportedType),
            0x28 => Some(TableId::ManifestResource),
            0x29 => Some(TableId::NestedClass),
            0x2A => Some(TableId::GenericParam),
            0x2B => Some(TableId::MethodSpec),
            0x2C => Some(TableId::GenericParamConstraint),
            _ => None,
        }
    }

    /// The table's name in the standard.
    pub fn name(self) -> &'static str
        ensures { result.now ≡ table_name self }
    {
        match self {
            TableId::Module => "Module",
            TableId::TypeRef => "TypeRef",
            TableId::TypeDef => "TypeDef",
            TableId::Field => "Field",
            TableId::MethodDef => "MethodDef",
            TableId::Param => "Param",
            TableId::InterfaceImpl => "InterfaceImpl",
            TableId::MemberRef => "MemberRef",
            TableId::Constant => "Constant",
            TableId::CustomAttribute => "CustomAttribute",
            TableId::FieldMarshal => "FieldMarshal",
            TableId::DeclSecurity => "DeclSecurity",
            TableId::ClassLayout => "ClassLayout",
            TableId::FieldLayout => "FieldLayout",
            TableId::StandAloneSig => "StandAloneSig",
            TableId::EventMap => "EventMap",
            TableId::Event => "Event",
            TableId::PropertyMap => "PropertyMap",
            TableId::Property => "Property",
            TableId::MethodSemantics => "MethodSemantics",
            TableId::MethodImpl => "MethodImpl",
            TableId::ModuleRef => "ModuleRef",
            TableId::TypeSpec => "TypeSpec",
            TableId::ImplMap => "ImplMap",
            TableId::FieldRVA => "FieldRVA",
            TableId::Assembly => "Assembly",
            TableId::AssemblyProcessor => "AssemblyProcessor",
            TableId::AssemblyOS => "AssemblyOS",
            TableId::AssemblyRef => "AssemblyRef",
            TableId::AssemblyRefProcessor => "AssemblyRefProcessor",
            TableId::AssemblyRefOS => "AssemblyRefOS",
            TableId::File => "File",
            TableId::ExportedType => "ExportedType",
            TableId::ManifestResource => "ManifestResource",
            TableId::NestedClass => "NestedClass",
            TableId::GenericParam => "GenericParam",
            TableId::MethodSpec => "MethodSpec",
            TableId::GenericParamConstraint => "GenericParamConstraint",
        }
    }

    /// The table index, from 0: the number of tables with a lower number.
    pub fn table_index(self) -> usize
        ensures value { result ≡ table_index_of self }
        ensures limit { result < 38 }
    {
        self as usize
    }
}

/// A table is printed as its name in the standard.
impl fmt::Display for TableId {
    ghost output = { λ table. Some (table_name table) };

    ghost styled_output = { λ table spec. Some (padded spec (table_name table)) };

    fn fmt<W: fmt::Write>(&self, f: &mut fmt::Formatter<W>) -> fmt::Result {
        f.pad(self.name())
    }
}
