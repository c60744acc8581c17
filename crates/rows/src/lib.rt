//! The rows of the tables in a table stream (ECMA-335 II.22 and II.24.2.6).
//!
//! [`Rows`] reads the cells of a stream in constant time, without copying the stream. [`ColumnNumbers`]
//! reads down one column, whose width is looked up once. [`put_row`] appends the bytes of a row; the
//! row is read back from them. If the keys of a table are sorted, [`find_key`] finds the rows with a
//! key by binary search, and reports how many keys it read. Only [`put_row`] allocates.
//!
//! ```text
//! let rows = Rows::new(stream, Layout::read(stream)?);
//! rows.place(TableId::Module, 1, 2) == 32
//! let name = rows.number(TableId::Module, 1, 1);
//! put_row(&mut bytes, rows.layout(), TableId::Module, &[0, name, 1, 0, 0])?;
//! ```
#![tactic(auto)]

mod column_numbers;
mod keys;
pub mod laws;
mod put;
mod rows;

pub use column_numbers::ColumnNumbers;
pub use keys::{Found, Keys, find_key};
pub use put::put_row;
pub use rows::Rows;
