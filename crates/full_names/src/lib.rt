//! Names of rows as text, in the notation of ILAsm (ECMA-335 II.5.3, II.7.2): of types, of their members, and of what an
//! assembly refers to. They are those of a root that was opened in place, or of tables in memory. Only the bytes of a
//! signature that is held as a value are allocated, so nothing of a root in place.
//!
//! Every call returns on every root: a TypeSpec may name itself, and the scopes of TypeRefs may go in a circle. A chain
//! of enclosing types is written up to [`DEPTH`] types, and `..` marks what is left out. Enclosing types are written only if
//! NestedClass is in the order of its key (II.22), so that each is found by binary search.
//!
//! ```text
//! write_full_name(alloc, &view, token, &mut out)?; // Hello.Greeter/Settings
//! ```
#![tactic(auto)]

mod inner_names;
mod limit;
mod names;
mod parts;
mod quoted;
mod row_names;
mod scopes;
mod signature_bytes;
mod signature_text;
mod specs_named;
mod text_end;
mod text_error;

pub use limit::{Limit, NoLimit, Scopes};
pub use names::{
    DEPTH, write_type_def, write_type_def_within, write_type_ref, write_type_ref_within,
};
pub use navigation::{ReadCells, ReadMetadata};
pub use parts::{write_number, write_signed, write_text};
pub use quoted::{NameKind, names_are_read, write_name, write_quoted, write_type_name};
pub use row_names::{member_parent, type_of_member, write_own_name, write_row_name};
pub use signature_bytes::bytes_of;
pub use signature_text::{WriteNames, write_signature};
pub use specs_named::{FullNames, write_full_name, write_full_name_within};
pub use table_schema::{TableId, Token};
pub use text_end::{TextEnd, keep, keep_refusal, result_of};
pub use text_error::TextError;
