//! Reads blobs that are values: those of custom attributes (ECMA-335 II.23.3), and marshalling descriptors (II.22.17, II.23.4),
//! which say how a field, a parameter or a result is passed to native code. Nothing here allocates.
//!
//! [`Items`] walks over the value of an attribute: the fixed arguments, the number of named arguments, and these. It reads one
//! item at a time. The elements of an array are items too. The signature of the constructor gives the types of its
//! parameters. An item `Simple(of)` of `sig_items` stands for [`ElementType::Simple`], a class with the name System.Type for
//! [`ElementType::SystemType`], and a value type for an enum, which is read as a number of its underlying type. Three kinds of
//! values are outside the grammar, and a blob with one of them has no items: an array in an object, an object in an object,
//! and an enum that is named by its type, since the size of its values is not in the blob.
//!
//! [`read_descriptor`] reads the blob of a row of FieldMarshal. The grammar is `IsDescriptor` in `specs/DescriptorParts.antt`:
//! the native types of the standard, and those that Microsoft's compilers write too. A blob is at most one descriptor. A type
//! that neither lists is none.
//!
//! ```text
//! // one string, and no named arguments
//! Items::of(b"\x01\x00\x02hi\x00\x00", &[ArgumentType::One(ElementType::Simple(Element::String))])?
//! // gives Item::Fixed(Argument::One(Value::Plain(Scalar::String(Some("hi"))))) and Item::NamedCount(0)
//!
//! read_descriptor(&[0x14]) == Some(Descriptor::Native(Native::LpStr))
//! read_descriptor(&[0x2A, 0x08, 0x02]) == Some(Descriptor::Array(Some(Native::U4), ArraySize::Param(2)))
//! read_descriptor(&[0x14, 0x00]) == None // one byte remains
//! ```
#![tactic(auto)]

mod arguments;
mod descriptor;
mod forms;
mod item;
mod items;
mod native;
mod numbers;
mod read;
mod readers;
mod scalars;
mod step;
mod strings;
mod types;
mod variant;

pub use descriptor::{ArraySize, Custom, Descriptor};
pub use item::{Argument, Item, Member, Scalar, Value};
pub use items::Items;
pub use native::Native;
pub use read::read_descriptor;
pub use sig_grammar::Element;
pub use types::{ArgumentType, ElementType};
pub use variant::variant_word;
