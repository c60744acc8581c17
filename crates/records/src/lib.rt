//! The rows of tables as records (ECMA-335 II.22). This crate has the records of assemblies, their files and
//! their resources, of events and properties, and of what is attached to other rows. It exports those of
//! `type_records` too, so that all 38 are here. For each coded index it has an enum of the records of the
//! tables that the index lists.
//!
//! ```text
//! let record = AssemblyRef::from_cells(cells)?; // None if they are not a row of AssemblyRef
//! record.name == "mscorlib" && record.culture.is_empty()
//! ```
#![tactic(auto)]

mod assemblies;
mod attached;
mod events;
mod files;
mod named_members;
mod named_types;
mod properties;
mod references;

pub use assemblies::{Assembly, AssemblyOS, AssemblyProcessor};
pub use attached::{Constant, CustomAttribute, DeclSecurity};
pub use events::{Event, EventMap};
pub use files::{ExportedType, File, ManifestResource};
pub use named_members::{CustomAttributeType, MemberRefParent, MethodDefOrRef, TypeOrMethodDef};
pub use named_types::{Implementation, ResolutionScope, TypeDefOrRef};
pub use properties::{Property, PropertyMap};
pub use references::{AssemblyRef, AssemblyRefOS, AssemblyRefProcessor, ImplMap, ModuleRef};
pub use type_records::{
    Bytes, Cell, CellRow, ClassLayout, CodedRow, Field, FieldLayout, FieldMarshal, FieldRVA,
    FromRow, GenericParam, GenericParamConstraint, InterfaceImpl, IsSignature, MemberRef,
    MethodDef, MethodImpl, MethodSemantics, MethodSpec, Module, NestedClass, Param, Record, Row,
    SigKind, Signature, StandAloneSig, TableId, Text, Token, TypeDef, TypeRef, TypeSpec,
    coded_row_of, is_row_of, lists, record_of,
};
