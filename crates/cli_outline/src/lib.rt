//! The outline of an assembly: its declarations in the notation of ILAsm (ECMA-335 II.5 to II.22), one per line.
//!
//! [`print_outline`] prints the outline of a view, [`print_outline_of`] that of one type or row, [`print_refs`] what a view refers
//! to in other modules, and [`print_refs_of`] what of one type. [`OutlineOptions`] says what is shown. `specs/Outline.antt` says which
//! rows can have a line, and `specs/Orders.antt` in which order. `specs/Declarations.antt` says what the line of a declaration is.
//! `cli_names` says which rows have a line, and `cli_declarations` what the declaration of a row is. It is proved that these lines
//! are printed and nothing else.
//!
//! ```text
//! .assembly Hello { .hash algorithm 0x00008004 .ver 1:0:0:0 }  // 20000001
//! .class public auto ansi beforefieldinit Hello.Greeter extends [mscorlib]System.Object  // 02000002
//!   .field private string Hello.Greeter::name  // 04000001
//!   .method public hidebysig instance string Hello.Greeter::Greet(int32 times) cil managed  // 06000001
//! {"token":"06000001","type":"02000002","directive":".method","text":".method public .."} // the same as JSON
//! ```
#![tactic(auto)]

mod chosen;
mod line;
mod orders;
mod outline;

pub use cli_names::{OutlineOptions, Rows, Sorting, Subject, Tokens};
pub use outline::{Outcome, print_outline, print_outline_of, print_refs, print_refs_of};
