//! The text of signatures in the notation of ILAsm (ECMA-335 II.7.1, II.15.3). It does not allocate.
//!
//! [`write_signature`] reads the bytes of a blob and passes the text to a [`TextSink`], word by word. The sink
//! writes the names of tokens, because only its owner knows them. [`NamedText`] is a sink that writes to any
//! `fmt::Write`. [`write_declaration`] writes a method or a property with its name and the flags and the names of its
//! parameters, and a field with its name. [`element_name`] is the name of a type that is encoded as one byte.
//! The recursion is as deep as types nest, at most 128.
//!
//! The text of a signature is the definition `text_of` in `specs/SignatureText.antt`. It is proved that a sink receives
//! its pieces and nothing else, until it refuses one (`specs/Receives.antt`). It is linear in the bytes of the blob and
//! the names: of an array of rank more than 32 the rank is written, and only the dimensions with a size or a bound.
//!
//! ```text
//! // 20 02 01 08 1D 0E: an instance method without result; its parameters are an integer and a vector of strings
//! method instance void *(int32, string[])
//! // 14 08 02 00 01 00: an array of two dimensions, the first with lower bound 0
//! int32[0...,]
//! // 14 08 DF FF FF FF 01 03 00: an array of 2^29 - 1 dimensions, the first with size 3
//! int32[3,... rank 536870911]
//! ```
#![tactic(auto)]

mod declared;
mod head;
mod marks;
mod named;
mod shape;
mod sink;
mod types;
mod whole;
mod words;

pub use declared::{MethodSink, write_declaration};
pub use named::{NamedText, TokenNames};
pub use sink::TextSink;
pub use table_schema::{SigKind, Token};
pub use types::element_name;
pub use whole::{write_encoded, write_signature};
