//! The tables of metadata and their columns (ECMA-335 II.22), coded indexes (II.24.2.6) and tokens (III.1.9).
//!
//! [`TableId`] is a table, [`columns`] and [`key`] say what its rows hold. [`split`] and [`join`] go between the
//! number of a coded index and the row that it names, and [`Token`] is a row in four bytes. Nothing here depends on
//! the bytes of a table stream, and nothing allocates.
//!
//! ```text
//! columns(TableId::TypeDef).len() == 6
//! split(Coded::HasCustomAttribute, 46) == Some((TableId::Assembly, 1))
//! ```
#![tactic(auto)]

mod cell_columns;
mod coded;
mod coded_index;
mod column;
mod column_lists;
pub mod laws;
mod table;
mod token;

pub use cell_columns::{cell_count, column_of_cell};
pub use coded::{Coded, lists};
pub use coded_index::{join, split};
pub use column::{Column, ColumnKind, SigKind};
pub use column_lists::{columns, key};
pub use table::TableId;
pub use token::Token;
