//! Writes the canonical encoding of signatures (ECMA-335 II.23.2), and says which signatures have one.
//!
//! [`encoded_len`] returns the number of bytes of the canonical encoding of a [`SigBody`], or `None` if
//! no bytes encode it. It does not allocate, and stops if types nest deeper than 128 or the encoding reaches
//! 2^29 bytes. [`encode_body`] writes the encoding of a value that has one. The grammar of
//! `sig_grammar` says what an encoding is, and which values have one.
//!
//! Both traverse the value with [`visit_body`], which passes its parts to a [`PartSink`] in encoded order:
//! bytes, packed numbers, packed signed numbers and type indexes. It also reports each part of the value that
//! breaks the grammar, or nests deeper than is allowed.
//!
//! ```text
//! encoded_len(&field_of_int) == Some(2)
//! encode_body(alloc, &field_of_int)? // 06 08
//! visit_body(&mut sink, &field_of_int, 128)? // sink.byte(0x06)?, then sink.byte(0x08)?
//! ```
//!
//! It also compares signatures, and finds the first type index whose row does not exist. A [`SigBody`](sig_grammar::SigBody) contains boxes and vectors. So two values with the same content lie at
//! different addresses. [`is_same`] compares the content of two values. [`first_bad`] checks the type indexes of
//! one in encoded order. Each makes one pass, with a recursion as deep as the types nest, and does not allocate.
//!
//! ```text
//! // 1F 09 12 05: the class that is row 1 of TypeRef, after a required modifier, row 2 of TypeRef
//! first_bad(&body, &counts) // row 2 if TypeRef has one row; None if it has two
//! ```
#![tactic(auto)]

mod bodies;
mod encode;
mod items;
pub mod laws;
mod length;
mod measurer;
mod row_checker;
mod same_body;
mod same_parts;
mod same_types;
mod sink;
mod types;
mod writer;

pub use bodies::visit_body;
pub use encode::{encode_body, encode_into};
pub use length::encoded_len;
pub use row_checker::first_bad;
pub use same_body::is_same;
pub use sig_grammar::SigBody;
pub use sink::PartSink;
