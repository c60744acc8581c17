//! Custom attributes (ECMA-335 II.21, II.22.10, II.23.3): the types of the parameters of their constructors, from their
//! signatures, and the text of their values. Nothing here allocates.
//!
//! [`params_of`] reads the signature of a constructor, which is a row of MethodDef or MemberRef. A parameter is a simple type,
//! an object, a string, `System.Type`, an enum of this file, or an array of one of these. An enum has the type of its
//! instance field (II.14.3), if that is among its first 16 fields; an enum of another file, any other type, and more than 64
//! parameters have no types here. Of a signature at most 8,320 bytes are read, and the names of a type only up to the first
//! byte that differs. The fields of a type are found by binary search at most with `Neighbours`; with a view alone a null
//! start is followed to the next one.
//!
//! [`write_value`] writes the items that `blob_values` reads, in the notation of ILAsm: the fixed arguments in order, and then
//! the named ones, a space before each. An argument has its type before it, and its value in parentheses. The text is the
//! definition `value_text` in `specs/Texts.antt`.
//!
//! ```text
//! let params = params_of(&source, constructor)?;
//! for item in Items::of(value, params.as_slice())? { .. }
//!
//! string("abc") int32(-5) bool(true) char(65) float32(0x3f800000) type("System.String, mscorlib") object(int32(5))
//! int32[2](1 2) string[](nullref) string(nullref)
//! field int32 "Count" = int32(5) property bool "Inherited" = bool(true)
//! ```
#![tactic(auto)]

mod arguments;
mod constructors;
mod enums;
mod params;
mod read_view;
mod scalars;
mod signatures;
mod system_types;
mod values;
mod words;

pub use constructors::{constructor, type_of};
pub use full_names::{Limit, NoLimit};
pub use params::Params;
pub use read_view::ReadView;
pub use signatures::params_of;
pub use values::write_value;
