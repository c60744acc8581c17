//! What an index of a heap names (ECMA-335 II.24.2.3 to II.24.2.5): of `#Strings`, `#Blob`, `#US` and `#GUID`.
//!
//! [`text`], [`blob`], [`user_string`] and [`guid`] read the entry at an index, in the bytes of the heap, and do not
//! allocate. If there is none they return a [`HeapFault`], which says what is missing. An absent heap is no bytes.
//! [`Strings`] checks an index in constant time, after one look at a heap that is UTF-8. [`guid_text`] writes a GUID
//! as text, and [`same_padded`] compares heaps without their padding.
//!
//! ```text
//! text(b"\0a.dll\0", 1) == Ok("a.dll")
//! guid_text(alloc, &guid)? // "03020100-0504-0706-0809-0a0b0c0d0e0f" of the bytes 00 01 02 .. 0F
//! ```
#![tactic(auto)]

mod blobs;
mod fault;
mod guid_format;
mod guids;
pub mod laws;
mod padding;
mod strings;
mod user_strings;

pub use blobs::blob;
pub use fault::HeapFault;
pub use guid_format::guid_text;
pub use guids::guid;
pub use padding::{are_zeros, copy_padded, same_padded};
pub use strings::{Strings, text};
pub use user_strings::{Units, UserString, user_string};
