//! The structures of a file that contain a byte: headers, sections, streams and row counts (ECMA-335 II.24.2 and II.25).
//!
//! A [`Structure`] is a range of bytes of a file, and what it is. A [`Search`] keeps those that contain the byte at an offset.
//! Each function looks at the structures of its part of the file, the outermost first. The names and sizes of all fields are
//! in `fields`.
//!
//! ```text
//! let mut found = Search::new(rt.alloc(), 0x88);
//! find_pe(&read_pe(&file)?, &mut found);
//! found.finish()?; // the PE file header: 20 bytes at 132; its field TimeDateStamp: 4 bytes at 136
//! ```
#![tactic(auto)]

mod fields;
mod files;
mod headers;
mod searches;

pub use files::{find_cli, find_pe};
pub use headers::{find_root, find_table_stream};
pub use searches::{Name, Search, Structure, What, has_byte};
