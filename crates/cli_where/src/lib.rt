//! Prints what a byte of a file belongs to, and the user strings with their tokens: `clim where` and `clim strings`
//! (ECMA-335 II.22 to II.25, III.1.9).
//!
//! [`structures_at`] walks over a file, entire or broken, and returns the structures that contain the byte at an offset, from
//! the outermost to the innermost: the PE headers, the section, the CLI header, the metadata root, its stream headers and
//! streams, the field, row count or cell of the table stream, and the heap entries, with the cells that refer to them or
//! their token. [`print_structures`] prints a line for each. [`print_where`] checks the rules, and does both.
//!
//! [`print_strings`] walks over the entries of `#US`, one after another, and prints a line for each.
//!
//! ```text
//! print_where(rt.alloc(), &file, Input::File, 0x2d4, &mut out)? == Found::Something
//! print_strings(rt.alloc(), &root, Input::BareRoot, &mut out)?;
//! // 70000001 Hello
//! // 7000000d a\u005cb
//! ```
#![tactic(auto)]

mod entries;
mod report;
mod structure_lines;
mod user_strings;
mod walk;

pub use cli_regions::{Structure, What};
pub use report::{Found, print_where};
pub use structure_lines::print_structures;
pub use user_strings::print_strings;
pub use walk::{Reach, structures_at};
