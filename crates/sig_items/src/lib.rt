//! Iterates over the items of signatures (ECMA-335 II.23.2), and writes them.
//!
//! [`Items`] reads the bytes of a blob that encode a signature. It returns one [`Item`] at a time, in
//! encoded order: heads with their counts, types, modifiers, shapes. Each step reads the bytes of one item
//! and otherwise takes constant time. A fixed array holds what remains to be read, because types nest
//! at most 128 deep. So it does not allocate. The grammar is that of `sig_grammar`.
//!
//! [`put_item`] writes the bytes of an item, each number and each type index in its shortest form. The items of a
//! signature, one after another, are its canonical encoding.
//!
//! ```text
//! // a field of a 4-byte integer
//! Items::of(&[0x06, 0x08], SigKind::Field)? // gives Item::Field, Item::Simple(Element::I4)
//! put_item(&mut bytes, Item::Var(3))? // appends 13 03
//! ```
#![tactic(auto)]

mod bodies;
mod encoded;
mod follow;
mod frames;
mod item;
mod items;
pub mod laws;
mod methods;
mod position;
mod shape;
mod step;
mod types;

pub use encoded::put_item;
pub use item::{Item, MethodHead};
pub use items::Items;
pub use sig_grammar::CallingConvention;
pub use table_schema::{SigKind, Token};
