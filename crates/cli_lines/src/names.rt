//! The names of members.
ghost use Rattle.std.specs.Prelude.{◌≡◌, map};
ghost use Rattle.cli_lines.specs.Names.{cell_names, key_text, label_text, name_text, row_start};
ghost use Rattle.cli_lines.specs.declared.names.Name.TheVariants as name;

use table_schema::TableId;

/// The name of a member. Each name but that of a cell is the member of this name in lower case.
#[derive(Clone, Copy)]
pub enum Name {
    /// The name of the column of a cell, by the index of the cell in its row (ECMA-335 II.22).
    Cell(TableId, usize),
    Assembly,
    Blob,
    Build,
    Cause,
    Cli,
    Code,
    Column,
    Culture,
    Debug,
    Difference,
    Digest,
    Directive,
    Entry,
    Equal,
    Fields,
    File,
    Flag,
    Flags,
    Format,
    Layer,
    Left,
    Length,
    Limit,
    Machine,
    Major,
    Methods,
    Minor,
    Module,
    Mvid,
    Name,
    Namespace,
    Native,
    Offset,
    Ok,
    Reference,
    Resource,
    Resources,
    Revision,
    Right,
    Root,
    Row,
    Rule,
    Section,
    Signature,
    Size,
    Stream,
    Structure,
    Summary,
    Table,
    Text,
    Token,
    Type,
    Types,
    Units,
    Value,
    Version,
    Visibility,
}

/// A name in quotes, after a comma and before a colon.
macro_rules! key {
    ($name:ident) => { concat!(",\"", stringify!($name), "\":") };
}

/// The key of a name: that of a cell, or the word beside the name.
macro_rules! key_of {
    ($name:expr; $($variant:ident $word:ident,)+) => {
        match $name {
            Name::Cell(table, index) => match keys_of(table).cells.get(index) {
                Some(key) => *key,
                None => ",\"\":",
            },
            $(Name::$variant => key!($word),)+
        }
    };
}

/// Texts of a table: its name with the key of a row's number, and the key and the label of each cell.
#[derive(Clone, Copy)]
pub(crate) struct Keys {
    pub(crate) row: &'static str,
    cells: &'static [&'static str],
    labels: &'static [&'static str],
}

/// The keys of the rows of a table, from its name and those of the columns of its cells.
macro_rules! keys {
    ($table:ident: $($column:ident)+) => {
        Keys {
            row: concat!("\"", stringify!($table), "\",\"row\":"),
            cells: &[$(key!($column)),+],
            labels: &[$(concat!(" ", stringify!($column), "=")),+],
        }
    };
}

impl Name {
    /// The name in quotes, after a comma and before a colon.
    #[tactic(auto, unfolding(json::specs::Print::escape_byte))]
    #[inline(always)]
    pub(crate) fn key(self) -> &'static str
        ensures { result.now ≡ key_text (name_text self) }
    {
        key_of! {
            self;
            Assembly assembly, Blob blob, Build build, Cause cause, Cli cli, Code code,
            Column column, Culture culture, Debug debug, Difference difference, Digest digest,
            Directive directive, Entry entry, Equal equal, Fields fields, File file, Flag flag,
            Flags flags, Format format, Layer layer, Left left, Length length, Limit limit,
            Machine machine, Major major, Methods methods, Minor minor, Module module, Mvid mvid,
            Name name, Namespace namespace, Native native, Offset offset, Ok ok,
            Reference reference, Resource resource, Resources resources, Revision revision,
            Right right, Root root, Row row, Rule rule, Section section, Signature signature,
            Size size, Stream stream, Structure structure, Summary summary, Table table, Text text,
            Token token, Type type, Types types, Units units, Value value, Version version,
            Visibility visibility,
        }
    }
}

/// The name of a cell's column, between a space and an equals sign.
#[inline(always)]
pub fn cell_label(table: TableId, index: usize) -> &'static str
    ensures { result.now ≡ label_text (name_text (name.Cell table index)) }
{
    match keys_of(table).labels.get(index) {
        Some(label) => *label,
        None => " =",
    }
}

/// The keys of the rows of a table.
#[tactic(auto, unfolding(json::specs::Print::escape_byte, table_schema::specs::CellColumns::cell_columns))]
#[inline(always)]
pub(crate) fn keys_of(table: TableId) -> Keys
    ensures row { result.row.now ≡ row_start table }
    ensures cells { map (λ text. text.now) result.cells.now ≡ map key_text (cell_names table) }
    ensures labels { map (λ text. text.now) result.labels.now ≡ map label_text (cell_names table) }
{
    match table {
        TableId::Module => keys!(Module: Generation Name Mvid EncId EncBaseId),
        TableId::TypeRef => keys!(TypeRef: ResolutionScope TypeName TypeNamespace),
        TableId::TypeDef =>
            keys!(TypeDef: Flags TypeName TypeNamespace Extends FieldList MethodList),
        TableId::Field => keys!(Field: Flags Name Signature),
        TableId::MethodDef => keys!(MethodDef: RVA ImplFlags Flags Name Signature ParamList),
        TableId::Param => keys!(Param: Flags Sequence Name),
        TableId::InterfaceImpl => keys!(InterfaceImpl: Class Interface),
        TableId::MemberRef => keys!(MemberRef: Class Name Signature),
        TableId::Constant => keys!(Constant: Type Parent Value),
        TableId::CustomAttribute => keys!(CustomAttribute: Parent Type Value),
        TableId::FieldMarshal => keys!(FieldMarshal: Parent NativeType),
        TableId::DeclSecurity => keys!(DeclSecurity: Action Parent PermissionSet),
        TableId::ClassLayout => keys!(ClassLayout: PackingSize ClassSize Parent),
        TableId::FieldLayout => keys!(FieldLayout: Offset Field),
        TableId::StandAloneSig => keys!(StandAloneSig: Signature),
        TableId::EventMap => keys!(EventMap: Parent EventList),
        TableId::Event => keys!(Event: EventFlags Name EventType),
        TableId::PropertyMap => keys!(PropertyMap: Parent PropertyList),
        TableId::Property => keys!(Property: Flags Name Type),
        TableId::MethodSemantics => keys!(MethodSemantics: Semantics Method Association),
        TableId::MethodImpl => keys!(MethodImpl: Class MethodBody MethodDeclaration),
        TableId::ModuleRef => keys!(ModuleRef: Name),
        TableId::TypeSpec => keys!(TypeSpec: Signature),
        TableId::ImplMap => keys!(ImplMap: MappingFlags MemberForwarded ImportName ImportScope),
        TableId::FieldRVA => keys!(FieldRVA: RVA Field),
        TableId::Assembly =>
            keys!(Assembly: HashAlgId MajorVersion MinorVersion BuildNumber RevisionNumber Flags PublicKey Name Culture),
        TableId::AssemblyProcessor => keys!(AssemblyProcessor: Processor),
        TableId::AssemblyOS => keys!(AssemblyOS: OSPlatformID OSMajorVersion OSMinorVersion),
        TableId::AssemblyRef =>
            keys!(AssemblyRef: MajorVersion MinorVersion BuildNumber RevisionNumber Flags PublicKeyOrToken Name Culture HashValue),
        TableId::AssemblyRefProcessor => keys!(AssemblyRefProcessor: Processor AssemblyRef),
        TableId::AssemblyRefOS =>
            keys!(AssemblyRefOS: OSPlatformID OSMajorVersion OSMinorVersion AssemblyRef),
        TableId::File => keys!(File: Flags Name HashValue),
        TableId::ExportedType =>
            keys!(ExportedType: Flags TypeDefId TypeName TypeNamespace Implementation),
        TableId::ManifestResource => keys!(ManifestResource: Offset Flags Name Implementation),
        TableId::NestedClass => keys!(NestedClass: NestedClass EnclosingClass),
        TableId::GenericParam => keys!(GenericParam: Number Flags Owner Name),
        TableId::MethodSpec => keys!(MethodSpec: Method Instantiation),
        TableId::GenericParamConstraint => keys!(GenericParamConstraint: Owner Constraint),
    }
}
