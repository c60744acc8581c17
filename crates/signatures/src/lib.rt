//! Signatures (ECMA-335 II.23.2): values that have an encoding. They are decoded from bytes and encoded to bytes.
//!
//! A [`Signature`] holds a [`SigBody`] that has an encoding. There are two ways to make one: [`Signature::new`]
//! tests a body, and [`decode`] builds it from the bytes of a blob: the one that all of them encode, of types that nest at
//! most 128 deep. It returns [`SigError::Bad`] if and only if they encode none, even if memory is exhausted. [`encode`]
//! writes its canonical encoding
//! and fails only if it is out of memory. What it writes decodes to the same signature.
//! [`canonical_encoding`] converts bytes to the shortest bytes that encode the same signature.
//! [`recognise`] and [`index_of_first_bad`] read bytes without allocation. Contracts see only the content of
//! a signature. So `==` compares content, not addresses.
//!
//! ```text
//! let field = decode(alloc, &[0x06, 0x08], SigKind::Field)?; // a field of a 4-byte integer
//! encode(alloc, &field)? == [0x06, 0x08]
//! ```
#![tactic(auto)]

mod bodies;
mod canonical;
mod columns;
mod error;
mod head;
pub mod laws;
mod leaf;
mod long_forms;
mod methods;
mod modifiers;
mod shape;
mod signature;
mod slots;
mod types;
mod whole;

pub use canonical::canonical_encoding;
pub use error::SigError;
pub use long_forms::is_plainly_canonical;
pub use sig_grammar::{
    Core, Element, FieldSig, InstanceSig, Local, LocalsSig, MethodSig, Modifier, Prefix,
    PropertySig, Ret, Shape, SigBody, Slot, SlotKind, TypeSig,
};
pub use sig_recogniser::{index_of_first_bad, recognise, recognise_first_bad};
pub use signature::{Signature, decode, encode};
pub use table_schema::{SigKind, Token};
