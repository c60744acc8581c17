//! The metadata root and its directory of streams (ECMA-335 II.24.2.1 and II.24.2.2).
//!
//! [`read_root`] returns a [`Root`] if and only if the bytes are a metadata root of at most 2^30 bytes.
//! Otherwise it returns the fault of the first broken rule, with its offset in these bytes. A `Root` has
//! the version, the five streams of the standard and all stream headers. All of these borrow the
//! input. Nothing here allocates.
//!
//! ```text
//! let root = read_root(bytes)?;
//! root.version() == "v4.0.30319"
//! root.stream(Kind::Tables) == Some(&bytes[80..120])
//! for header in root.headers() { .. }
//! ```
#![tactic(auto)]

mod header;
mod headers;
mod kind;
pub mod laws;
mod readable;
mod root;
mod root_header;
mod walk;

pub use header::StreamHeader;
pub use headers::Headers;
pub use kind::Kind;
pub use packed::{Fault, FaultCode};
pub use readable::read_until_fault;
pub use root::{Root, read_root};
