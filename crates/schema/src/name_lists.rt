ghost use Rattle.std.specs.Prelude.{◌≡◌, length, map};
ghost use Rattle.table_schema.specs.Columns.{columns_of};
ghost use Rattle.schema.specs.ColumnNames.{column_names_of};

use table_schema::TableId;

const TYPE_DEF: &[&str] = &[
    "Flags",
    "TypeName",
    "TypeNamespace",
    "Extends",
    "FieldList",
    "MethodList",
];

const METHOD_DEF: &[&str] = &[
    "RVA",
    "ImplFlags",
    "Flags",
    "Name",
    "Signature",
    "ParamList",
];

const IMPL_MAP: &[&str] = &[
    "MappingFlags",
    "MemberForwarded",
    "ImportName",
    "ImportScope",
];

const ASSEMBLY: &[&str] = &[
    "HashAlgId",
    "MajorVersion",
    "MinorVersion",
    "BuildNumber",
    "RevisionNumber",
    "Flags",
    "PublicKey",
    "Name",
    "Culture",
];

const ASSEMBLY_REF: &[&str] = &[
    "MajorVersion",
    "MinorVersion",
    "BuildNumber",
    "RevisionNumber",
    "Flags",
    "PublicKeyOrToken",
    "Name",
    "Culture",
    "HashValue",
];

const ASSEMBLY_REF_OS: &[&str] = &[
    "OSPlatformID",
    "OSMajorVersion",
    "OSMinorVersion",
    "AssemblyRef",
];

const EXPORTED_TYPE: &[&str] = &[
    "Flags",
    "TypeDefId",
    "TypeName",
    "TypeNamespace",
    "Implementation",
];

/// The names of the columns of a table, in order (II.22).
///
/// The second column of Constant, a padding byte without meaning, has the name `padding`.
pub fn column_names(table: TableId) -> &'static [&'static str]
    ensures value { map (λ name. name.now) result.now ≡ column_names_of table }
    ensures count { length result.now ≡ length (columns_of table) }
{
    match table {
        TableId::Module => &["Generation", "Name", "Mvid", "EncId", "EncBaseId"],
        TableId::TypeRef => &["ResolutionScope", "TypeName", "TypeNamespace"],
        TableId::TypeDef => TYPE_DEF,
        TableId::Field => &["Flags", "Name", "Signature"],
        TableId::MethodDef => METHOD_DEF,
        TableId::Param => &["Flags", "Sequence", "Name"],
        TableId::InterfaceImpl => &["Class", "Interface"],
        TableId::MemberRef => &["Class", "Name", "Signature"],
        TableId::Constant => &["Type", "padding", "Parent", "Value"],
        TableId::CustomAttribute => &["Parent", "Type", "Value"],
        TableId::FieldMarshal => &["Parent", "NativeType"],
        TableId::DeclSecurity => &["Action", "Parent", "PermissionSet"],
        TableId::ClassLayout => &["PackingSize", "ClassSize", "Parent"],
        TableId::FieldLayout => &["Offset", "Field"],
        TableId::StandAloneSig => &["Signature"],
        TableId::EventMap => &["Parent", "EventList"],
        TableId::Event => &["EventFlags", "Name", "EventType"],
        TableId::PropertyMap => &["Parent", "PropertyList"],
        TableId::Property => &["Flags", "Name", "Type"],
        TableId::MethodSemantics => &["Semantics", "Method", "Association"],
        TableId::MethodImpl => &["Class", "MethodBody", "MethodDeclaration"],
        TableId::ModuleRef => &["Name"],
        TableId::TypeSpec => &["Signature"],
        TableId::ImplMap => IMPL_MAP,
        TableId::FieldRVA => &["RVA", "Field"],
        TableId::Assembly => ASSEMBLY,
        TableId::AssemblyProcessor => &["Processor"],
        TableId::AssemblyOS => &["OSPlatformID", "OSMajorVersion", "OSMinorVersion"],
        TableId::AssemblyRef => ASSEMBLY_REF,
        TableId::AssemblyRefProcessor => &["Processor", "AssemblyRef"],
        TableId::AssemblyRefOS => ASSEMBLY_REF_OS,
        TableId::File => &["Flags", "Name", "HashValue"],
        TableId::ExportedType => EXPORTED_TYPE,
        TableId::ManifestResource => &["Offset", "Flags", "Name", "Implementation"],
        TableId::NestedClass => &["NestedClass", "EnclosingClass"],
        TableId::GenericParam => &["Number", "Flags", "Owner", "Name"],
        TableId::MethodSpec => &["Method", "Instantiation"],
        TableId::GenericParamConstraint => &["Owner", "Constraint"],
    }
}
