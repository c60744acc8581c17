//! The headers of a PE file (ECMA-335 II.25.2 and II.25.3), PE32 and Microsoft's PE32+.
//!
//! [`read_pe`] returns a [`Pe`] if and only if the bytes are an image. Otherwise it returns the fault
//! of the first broken rule, with its offset in these bytes. A `Pe` converts an address to a file
//! offset, by the section headers, and gives the data directory of the CLI header. Nothing here
//! allocates.
//!
//! ```text
//! let pe = read_pe(bytes)?;
//! let (rva, size) = pe.cli_directory();
//! pe.range(rva, size) == Some(0x208..0x250)
//! ```
#![tactic(auto)]

mod headers;
mod image;
pub mod laws;
mod section;

pub use image::{Pe, read_pe};
pub use packed::{Fault, FaultCode};
