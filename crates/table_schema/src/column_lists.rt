ghost use Rattle.std.specs.Prelude.{◌≡◌, ◌<◌, IfSome, length};
ghost use Rattle.table_schema.specs.Columns.{columns_of, key_of};

use crate::coded::Coded;
use crate::column::{Column, ColumnKind, SigKind};
use crate::table::TableId;

/// A column of a kind, which allows null if `nullable` precedes the kind.
macro_rules! column {
    ($kind:expr) => {
        Column {
            kind: $kind,
            nullable: false,
        }
    };
    (nullable $kind:expr) => {
        Column {
            kind: $kind,
            nullable: true,
        }
    };
}

const U8: Column = column!(ColumnKind::U8);

const U16: Column = column!(ColumnKind::U16);

const U32: Column = column!(ColumnKind::U32);

const PADDING: Column = column!(ColumnKind::Padding);

const TEXT: Column = column!(ColumnKind::Text);

const GUID: Column = column!(ColumnKind::Guid);

const BLOB: Column = column!(ColumnKind::Blob);

const FIELD_SIGNATURE: Column = column!(ColumnKind::Signature(SigKind::Field));

const METHOD_DEF_SIGNATURE: Column = column!(ColumnKind::Signature(SigKind::MethodDef));

const MEMBER_REF_SIGNATURE: Column = column!(ColumnKind::Signature(SigKind::MemberRef));

const STAND_ALONE_SIGNATURE: Column = column!(ColumnKind::Signature(SigKind::StandAlone));

const PROPERTY_SIGNATURE: Column = column!(ColumnKind::Signature(SigKind::Property));

const TYPE_SPEC_SIGNATURE: Column = column!(ColumnKind::Signature(SigKind::TypeSpec));

const INSTANCE_SIGNATURE: Column = column!(ColumnKind::Signature(SigKind::Instance));

const TYPE_DEF_ROW: Column = column!(ColumnKind::Row(TableId::TypeDef));

const FIELD_ROW: Column = column!(ColumnKind::Row(TableId::Field));

const METHOD_DEF_ROW: Column = column!(ColumnKind::Row(TableId::MethodDef));

const MODULE_REF_ROW: Column = column!(ColumnKind::Row(TableId::ModuleRef));

const ASSEMBLY_REF_ROW: Column = column!(ColumnKind::Row(TableId::AssemblyRef));

const GENERIC_PARAM_ROW: Column = column!(ColumnKind::Row(TableId::GenericParam));

const FIELD_LIST: Column = column!(ColumnKind::List(TableId::Field));

const METHOD_DEF_LIST: Column = column!(ColumnKind::List(TableId::MethodDef));

const PARAM_LIST: Column = column!(ColumnKind::List(TableId::Param));

const EVENT_LIST: Column = column!(ColumnKind::List(TableId::Event));

const PROPERTY_LIST: Column = column!(ColumnKind::List(TableId::Property));

const NULLABLE_RESOLUTION_SCOPE: Column =
    column!(nullable ColumnKind::Coded(Coded::ResolutionScope));

const NULLABLE_TYPE_DEF_OR_REF: Column = column!(nullable ColumnKind::Coded(Coded::TypeDefOrRef));

const TYPE_DEF_OR_REF: Column = column!(ColumnKind::Coded(Coded::TypeDefOrRef));

const MEMBER_REF_PARENT: Column = column!(ColumnKind::Coded(Coded::MemberRefParent));

const HAS_CONSTANT: Column = column!(ColumnKind::Coded(Coded::HasConstant));

const HAS_CUSTOM_ATTRIBUTE: Column = column!(ColumnKind::Coded(Coded::HasCustomAttribute));

const CUSTOM_ATTRIBUTE_TYPE: Column = column!(ColumnKind::Coded(Coded::CustomAttributeType));

const HAS_FIELD_MARSHAL: Column = column!(ColumnKind::Coded(Coded::HasFieldMarshal));

const HAS_DECL_SECURITY: Column = column!(ColumnKind::Coded(Coded::HasDeclSecurity));

const HAS_SEMANTICS: Column = column!(ColumnKind::Coded(Coded::HasSemantics));

const METHOD_DEF_OR_REF: Column = column!(ColumnKind::Coded(Coded::MethodDefOrRef));

const MEMBER_FORWARDED: Column = column!(ColumnKind::Coded(Coded::MemberForwarded));

const NULLABLE_IMPLEMENTATION: Column = column!(nullable ColumnKind::Coded(Coded::Implementation));

const TYPE_OR_METHOD_DEF: Column = column!(ColumnKind::Coded(Coded::TypeOrMethodDef));

/// The columns of a table, in order (II.22).
pub fn columns(table: TableId) -> &'static [Column]
    ensures { result.now ≡ columns_of table }
{
    match table {
        TableId::Module => &[U16, TEXT, GUID, GUID, GUID],
        TableId::TypeRef => &[NULLABLE_RESOLUTION_SCOPE, TEXT, TEXT],
        TableId::TypeDef => &[
            U32,
            TEXT,
            TEXT,
            NULLABLE_TYPE_DEF_OR_REF,
            FIELD_LIST,
            METHOD_DEF_LIST,
        ],
        TableId::Field => &[U16, TEXT, FIELD_SIGNATURE],
        TableId::MethodDef => &[U32, U16, U16, TEXT, METHOD_DEF_SIGNATURE, PARAM_LIST],
        TableId::Param => &[U16, U16, TEXT],
        TableId::InterfaceImpl => &[TYPE_DEF_ROW, TYPE_DEF_OR_REF],
        TableId::MemberRef => &[MEMBER_REF_PARENT, TEXT, MEMBER_REF_SIGNATURE],
        TableId::Constant => &[U8, PADDING, HAS_CONSTANT, BLOB],
        TableId::CustomAttribute => &[HAS_CUSTOM_ATTRIBUTE, CUSTOM_ATTRIBUTE_TYPE, BLOB],
        TableId::FieldMarshal => &[HAS_FIELD_MARSHAL, BLOB],
        TableId::DeclSecurity => &[U16, HAS_DECL_SECURITY, BLOB],
        TableId::ClassLayout => &[U16, U32, TYPE_DEF_ROW],
        TableId::FieldLayout => &[U32, FIELD_ROW],
        TableId::StandAloneSig => &[STAND_ALONE_SIGNATURE],
        TableId::EventMap => &[TYPE_DEF_ROW, EVENT_LIST],
        TableId::Event => &[U16, TEXT, NULLABLE_TYPE_DEF_OR_REF],
        TableId::PropertyMap => &[TYPE_DEF_ROW, PROPERTY_LIST],
        TableId::Property => &[U16, TEXT, PROPERTY_SIGNATURE],
        TableId::MethodSemantics => &[U16, METHOD_DEF_ROW, HAS_SEMANTICS],
        TableId::MethodImpl => &[TYPE_DEF_ROW, METHOD_DEF_OR_REF, METHOD_DEF_OR_REF],
        TableId::ModuleRef => &[TEXT],
        TableId::TypeSpec => &[TYPE_SPEC_SIGNATURE],
        TableId::ImplMap => &[U16, MEMBER_FORWARDED, TEXT, MODULE_REF_ROW],
        TableId::FieldRVA => &[U32, FIELD_ROW],
        TableId::Assembly => &[U32, U16, U16, U16, U16, U32, BLOB, TEXT, TEXT],
        TableId::AssemblyProcessor => &[U32],
        TableId::AssemblyOS => &[U32, U32, U32],
        TableId::AssemblyRef => &[U16, U16, U16, U16, U32, BLOB, TEXT, TEXT, BLOB],
        TableId::AssemblyRefProcessor => &[U32, ASSEMBLY_REF_ROW],
        TableId::AssemblyRefOS => &[U32, U32, U32, ASSEMBLY_REF_ROW],
        TableId::File => &[U32, TEXT, BLOB],
        TableId::ExportedType => &[U32, U32, TEXT, TEXT, NULLABLE_IMPLEMENTATION],
        TableId::ManifestResource => &[U32, U32, TEXT, NULLABLE_IMPLEMENTATION],
        TableId::NestedClass => &[TYPE_DEF_ROW, TYPE_DEF_ROW],
        TableId::GenericParam => &[U16, U16, TYPE_OR_METHOD_DEF, TEXT],
        TableId::MethodSpec => &[METHOD_DEF_OR_REF, INSTANCE_SIGNATURE],
        TableId::GenericParamConstraint => &[GENERIC_PARAM_ROW, TYPE_DEF_OR_REF],
    }
}

/// The column by which the rows of a table are sorted (II.22), `None` if the table has no such column.
pub fn key(table: TableId) -> Option<usize>
    ensures value { result ≡ key_of table }
    ensures within { IfSome result (λ column. column < length (columns_of table)) }
{
    match table {
        TableId::InterfaceImpl
        | TableId::CustomAttribute
        | TableId::FieldMarshal
        | TableId::MethodImpl
        | TableId::NestedClass
        | TableId::GenericParamConstraint => Some(0),
        TableId::DeclSecurity | TableId::FieldLayout | TableId::ImplMap | TableId::FieldRVA => Some(
            1,
        ),
        TableId::Constant
        | TableId::ClassLayout
        | TableId::MethodSemantics
        | TableId::GenericParam => Some(2),
        _ => None,
    }
}
