//! The base of every layer: numbers of fixed size, packed numbers, the fields of headers,
//! and the faults that are reported for invalid bytes.
//!
//! A layer that reads has an ordered list of rules. It returns `Ok` if and only if all of them
//! hold, else the [`Fault`] of the first broken rule. `specs/Rule.antt` defines this for any
//! error type.
//!
//! ```text
//! let fault = Fault::new(FaultCode::Version, 12);
//! fault.layer == 3 && fault.code == 302 && fault.name() == "Version"
//! format!(in alloc; "{fault}")? == "fault 3 302 at 12: Version"
//! read_unsigned(&[0x80, 0x80, 0xFF]) == Some((128, 2))
//! ```
#![tactic(auto)]

mod code;
mod fault;
pub mod laws;
mod limit;
mod number;
mod signed;
mod unsigned;

pub use code::FaultCode;
pub use fault::Fault;
pub use limit::{BLOB_LIMIT, BYTE_LIMIT};
pub use number::{u16_at, u32_at, u64_at};
pub use signed::{put_signed, read_signed};
pub use unsigned::{put_unsigned, read_unsigned, unsigned_len};
