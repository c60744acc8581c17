//! Recognises signatures (ECMA-335 II.23.2) in one pass over their bytes, and reads their leaves. It does not allocate.
//!
//! [`recognise`] says whether all the bytes of a blob together encode a signature that a column of a
//! kind holds. They encode at most one. If they do, [`index_of_first_bad`] returns the first type index
//! whose row does not exist. [`recognise_first_bad`] returns both results in one pass. The grammar is
//! that of `sig_grammar`.
//!
//! A leaf contains no type: it is a byte, a packed number, a type index, a modifier, PINNED or SENTINEL.
//! Each call that reads one returns the leaf and the remaining bytes, or `None` if there is no such leaf.
//! The decoder, the items and the text of signatures use these calls too.
//!
//! ```text
//! recognise(&[0x06, 0x08], SigKind::Field) // a field of a 4-byte integer
//! !recognise(&[0x06, 0x08, 0x00], SigKind::Field) // one byte remains
//! index(&[0x05, 0x1C]) == Some((Token { table: TableId::TypeRef, row: 1 }, &[0x1C]))
//! ```
#![tactic(auto)]

mod columns;
mod head;
mod items;
mod position;
mod shape;
mod type_index;
mod walk;
mod whole;

pub use head::{byte, index, number, sentinel, signed};
pub use items::{has_modifier, has_prefix, modifier, prefix};
pub use table_schema::{SigKind, Token};
pub use whole::{index_of_first_bad, recognise, recognise_first_bad};
