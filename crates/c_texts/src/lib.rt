//! Texts in the buffers of a C caller (ECMA-335 II.22 to II.25).
//!
//! Each text is written to the start of the buffer, up to the length of the buffer. The bytes after it are unchanged. The
//! length of the whole text is returned, also if it does not fit. [`write_guid`] writes the text of a GUID,
//! [`write_signature_text`] a signature in the notation of ILAsm, [`write_row_text`] the name or the declaration of a row,
//! [`write_explanation`] what a rule means, and [`write_user_string`] the UTF-16 units of a user string. Only the
//! declaration of a method allocates: eight bytes for each of its rows of Param.
//!
//! ```text
//! write_guid(&guid, &mut buffer) == 38 // buffer begins with b"{03020100-0504-0706-0809-0a0b0c0d0e0f}"
//! write_row_text(alloc, &view, RowText::Name, token, &mut buffer) == 15 // b"Hello.Greeter::"..
//! ```
#![tactic(auto)]

mod explained;
mod guid_text;
mod limited_text;
mod parts;
mod row_text;
mod signature_text;
mod user_strings;

pub use explained::write_explanation;
pub use guid_text::write_guid;
pub use parts::{NO_MEMORY, ROOT_LIMIT, TOO_LONG, copy_at};
pub use row_text::{RowText, write_row_text};
pub use signature_text::write_signature_text;
pub use user_strings::{UserNumbers, write_user_string};
