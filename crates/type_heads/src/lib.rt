//! The words of flags (ECMA-335 II.23.1), and the lists in the head of a type or a method, in the notation of ILAsm: its generic
//! parameters with their constraints, and the interfaces that a type implements (II.10.1.7, II.10.2, II.12.2). Only the bytes of
//! signatures that are held as values are allocated.
//!
//! ```text
//! write_items(alloc, &source, Link::GenericParams, rows, &limit, &mut out)?; // + class .ctor (N.I, N.J) T, U
//! write_items(alloc, &source, Link::Interfaces, rows, &limit, &mut out)?; // N.I, N.J
//! ```
#![tactic(auto)]

mod flag_words;
mod heads;

pub use flag_words::{FlagTable, FlagWord, words_of, write_flags};
pub use heads::write_items;
