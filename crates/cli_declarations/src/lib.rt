//! The declaration of a row of an assembly, in the notation of ILAsm (ECMA-335 II.5 to II.22).
//!
//! [`declare`] makes a text the declaration of a row, [`name_row`] its name, and [`name_and_declare`] both. `specs/Layouts.antt` says what the
//! declaration of a row is, as a list of parts, and `specs/Parts.antt` what the text of a part is.
//!
//! ```text
//! .assembly Hello { .hash algorithm 0x00008004 .ver 1:0:0:0 }
//! .class public auto ansi beforefieldinit Hello.Greeter extends [mscorlib]System.Object
//!   .method public hidebysig instance string Hello.Greeter::Greet(int32 times) cil managed
//! ```
#![tactic(auto)]

mod blob_sink;
mod declaration;
mod declared;
mod layouts;
mod linked;
mod pieces;

pub use declaration::{declare, is_declared_in, name_and_declare, name_row};
pub use declared::Declared;
