//! Checks the rules for the tables of a metadata root, in place (ECMA-335 II.22).
//!
//! [`check_tables_within`] checks the rules of `metadata` for what a `Source` of `reading` reads. It checks, in
//! order, the cells, the order of rows, the runs of members, the order of nested types, and signatures. It returns
//! the fault of the first broken rule, or that a [`Budget`] of bytes of texts and signature blobs was spent. Each check
//! first looks column by column for the first row that breaks a rule, and then checks that row for its fault.
//! Nothing here allocates.
//!
//! ```text
//! let source = Source::new(rows, Strings::new(texts), blobs, guids, offset);
//! let in_order = check_tables_within(&source, Budget::Unbounded)?;
//! ```
#![tactic(auto)]

mod blobs;
mod budget;
mod cell_checks;
mod coded_limits;
mod column;
mod counted_rows;
pub mod laws;
mod passed;
mod signature_checks;
mod tables;
mod texts;

pub use budget::{BoundedError, Budget};
pub use cell_checks::{BrokenRow, first_broken_row};
pub use tables::check_tables_within;
