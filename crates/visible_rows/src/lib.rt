//! What is visible outside of an assembly (ECMA-335 II.22 and II.23.1): the types, members and resources that other assemblies can
//! refer to or inherit, and the rows that describe these.
//!
//! [`VisibleRows`] decides it for each row of a view. `specs/Visible.antt` defines it, as a function of the model.
//!
//! ```text
//! let rows = VisibleRows::new(alloc, &source)?;
//! let attribute = Token { table: TableId::CustomAttribute, row: 1 };
//! rows.is_visible(&source, attribute)      // false if it is an attribute of a private field
//! ```
//!
//! The type that declares what a row describes (ECMA-335 II.22).
//!
//! An attribute describes a type, a member of one, a parameter of a method, or what in turn describes one of these; an
//! interface, a generic parameter, a constraint, an override, an import and a permission set do, too. [`declaring_type`] finds
//! the type. It does not allocate.
//!
//! ```text
//! let attribute = Token { table: TableId::CustomAttribute, row: 1 };
//! declaring_type(&source, attribute)      // Some(02000002) if it is an attribute of a parameter of a method of this type
//! ```
#![tactic(auto)]

mod access;
mod declaring;
mod members;
mod types;
mod visible;

pub use declaring::declaring_type;
pub use visible::VisibleRows;
