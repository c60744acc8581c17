//! Declarations of methods and properties, references to methods and fields, and texts of signatures, in the notation of
//! ILAsm (ECMA-335 II.15.3, II.17), with the names that `full_names` writes. Of a method, eight bytes are allocated for each
//! row of Param, and the bytes of signatures that are held as values.
//!
//! ```text
//! write_method(alloc, &view, method, &mut out)?; // string Hello.Greeter::Greet(string name, int32 times)
//! write_reference(alloc, &view, token, &NoLimit, &mut out)?; // string Hello.Greeter::Greet(string, int32)
//! ```
#![tactic(auto)]

mod descriptors;
mod generics;
mod links;
mod method_text;
mod methods;
mod params;
mod references;
mod signature_text;

pub use descriptors::{descriptor_in, write_descriptor};
pub use full_names::{Limit, NoLimit, ReadCells, ReadMetadata, TableId, TextError, Token};
pub use methods::{write_method, write_method_of, write_method_within, write_property_within};
pub use references::write_reference;
pub use signature_text::write_signature_text;
