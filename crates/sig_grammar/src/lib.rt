//! The grammar of signatures (ECMA-335 II.23.2), and their values as Rust types.
//!
//! A [`SigBody`] is a whole signature: of a field, a method, a property, local variables, the arguments of a generic
//! method, or a type. The definitions in `specs/` say which bytes encode which value in which kind of column, what its
//! shortest encoding is, and which rows of type tables it names, in the order of the encoding. [`element_type`] and
//! [`Element`] have the bytes of element types, [`method_byte`] and [`CallingConvention`] the first byte of a method,
//! [`token_of_index`] the row that an index names, and [`names_row`] says whether there is one. [`laws`] has the laws of the
//! grammar, such as that no bytes encode two signatures.
//!
//! ```text
//! // 06 08: a field of a 4-byte integer
//! SigBody::Field(FieldSig(Slot { mods, kind: SlotKind::Plain(Core::Simple(Element::I4)) }))
//! ```
#![tactic(auto)]

mod body;
mod calling_convention;
mod element;
pub mod element_type;
mod index;
pub mod laws;
mod limits;
pub mod method_byte;
mod types;

pub use body::{FieldSig, InstanceSig, Local, LocalsSig, Prefix, PropertySig, SigBody};
pub use calling_convention::CallingConvention;
pub use element::Element;
pub use index::{names_row, token_of_index};
pub use limits::DEPTH_LIMIT;
pub use types::{Core, MethodSig, Modifier, Ret, Shape, Slot, SlotKind, TypeSig};
