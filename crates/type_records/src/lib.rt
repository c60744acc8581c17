//! The rows of tables as records, whose fields have the names of the columns (ECMA-335 II.22). This crate
//! has the records of the module, of types, of their fields and methods, and of generics.
//!
//! A record borrows from its source. [`Record::from_cells`] reads it from owned cells, and
//! [`Record::cells`] makes the cells again. [`FromRow`] reads it from any kind of [`Row`], so that a
//! record has one list of fields. If the text of a field does not say what null means, null is invalid
//! there; such a record can still be made.
//!
//! ```text
//! let record = TypeDef::from_cells(cells)?; // None if they are not a row of TypeDef
//! record.type_name == "Object" && record.extends.is_none()
//! ```
#![tactic(auto)]

mod cell_row;
mod coded_row;
mod field_value;
mod fields;
mod generics;
mod kinds;
mod methods;
mod record;
mod row;
mod signature;
mod types;

pub use cell_row::CellRow;
pub use coded_row::{CodedRow, coded_row_of, lists};
pub use field_value::{FieldValue, owned_cells};
pub use fields::{Field, FieldLayout, FieldMarshal, FieldRVA, MemberRef};
pub use generics::{GenericParam, GenericParamConstraint, MethodSpec};
pub use kinds::is_row_of;
pub use methods::{MethodDef, MethodImpl, MethodSemantics, Param, StandAloneSig};
pub use record::{FromRow, Record, record_of};
pub use row::Row;
pub use signature::IsSignature;
pub use table_schema::{SigKind, TableId};
pub use tables::{Bytes, Cell, Signature, Text, Token};
pub use types::{
    ClassLayout, FullName, InterfaceImpl, Module, NestedClass, TypeDef, TypeRef, TypeSpec,
};
