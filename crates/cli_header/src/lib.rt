//! The CLI header of a PE file (ECMA-335 II.25.3.3).
//!
//! [`read_cli`] returns a [`CliHeader`] if and only if the image has one. Otherwise it returns the
//! fault of the first broken rule, with its offset in the file. A header has all fields of the
//! standard, its own file offset, and the span of the metadata root, which is within the file.
//! Nothing here allocates.
//!
//! ```text
//! let pe = read_pe(bytes)?;
//! let header = read_cli(&pe)?;
//! let root = read_root(&bytes[header.root])?;
//! ```
#![tactic(auto)]

mod header;
pub mod laws;

pub use header::{CliHeader, DataDirectory, read_cli};
pub use pe::{Fault, FaultCode, Pe, read_pe};
