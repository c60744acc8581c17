//! The name that an argument may have meant: the one that the fewest edits lead to (Levenshtein, ignoring case). An
//! argument of more than 64 bytes gets no hint.
//!
//! [`nearest_table`], [`nearest_code`], [`nearest_column`] and [`nearest_command`] look for the name of a table, a rule, a column
//! or a subcommand. [`report_missing_type`] reports that a file has no such type, with the name of the nearest one,
//! or that several types have the name. [`report_missing_row`] reports that a token names no row, with the row count.
//!
//! ```text
//! nearest_table(alloc, "Modul") // TableId::Module
//! ```
#![tactic(auto)]

mod missing_row;
mod nearest;
mod nearest_type;

pub use missing_row::report_missing_row;
pub use nearest::{nearest_code, nearest_column, nearest_command, nearest_table};
pub use nearest_type::{Types, report_missing_type};
