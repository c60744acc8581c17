//! Says what number is at an offset of a file: lines of `clim where`, and of `clim check --where` (ECMA-335 II.22 to II.25).
//!
//! [`print_found`] prints the number in the header field or the cell at the offset of a fault, and beside it the size of what
//! a cell refers to, or the number that must come before it. [`print_value`] prints the number that a structure is, and what
//! it means: the words of flags, or what a cell refers to.
//!
//! ```text
//! print_found(rt.alloc(), rule, &file, Input::File, fault.offset, &structures, &mut out);
//! // 0x44c: value 4095 (0xfff); #Blob has 64 bytes
//! print_value(rt.alloc(), &file, &view, &structures, &mut out);
//! // 0x2a0: value 1048577 (0x100001) public auto ansi beforefieldinit
//! ```
#![tactic(auto)]

mod flags;
mod limits;
mod lines;
mod values;

pub use limits::{column_number, kind_of};
pub use lines::print_found;
pub use values::print_value;
