//! A metadata, whatever holds it (ECMA-335 II.22): a root that was opened in place, or tables in memory.
//!
//! A type that holds one implements [`ReadMetadata`]. The look-ups here are written and proved once, for
//! every such type. They do not allocate.
//!
//! ```text
//! let class = find_type(&source, "System", "Object")?;
//! for method in members_of(&source, MemberList::Methods, class) { .. }
//! for row in rows_by_key(&source, TableId::CustomAttribute, token) { .. }
//! ```
#![tactic(auto)]

mod by_key;
mod cells;
mod key_cells;
mod keys_of;
mod row_numbers;
mod runs_of;
mod signature_bytes;
mod source;
mod type_names;

pub use by_key::rows_by_key;
pub use cells::ReadCells;
pub use key_cells::kind_of;
pub use keys_of::KeysOf;
pub use metadata::MemberList;
pub use runs_of::members_of;
pub use signature_bytes::SignatureBytes;
pub use source::ReadMetadata;
pub use type_names::find_type;
