//! The tables of a model, while the caller fills them: a version, user bytes, and rows of cells; and the rules that they
//! must obey to be a valid model, in order (ECMA-335 II.22 and II.24.2).
//!
//! A [`Cell`] is a number, a string, bytes, a GUID, a row, the first member of an owner's run, or a signature.
//! [`Text`] wraps a `String`, and [`Bytes`] wraps a `Vec<u8>`. Wrapping and unwrapping do not allocate.
//! [`Cell::is_of_kind`] says whether a column takes a cell. A cell of the right kind can still break other
//! rules.
//!
//! [`Tables`] take any cells in any order. [`check_tables`] returns the first rule that they break, with its code and its
//! cell. It succeeds if and only if they are those of a valid model. [`find_order`] says which tables are in order of their
//! key; none has to be. Both do not allocate, and their cost is linear in the content of the cells. Cells and tables
//! own their content. Contracts see only the content, not its address, so `==` compares content.
//!
//! ```text
//! let mut tables = Tables::new(alloc, "v4.0.30319")?;
//! tables.push(TableId::Module, cells)?; // its first row
//! tables.count(TableId::Module) == 1
//! check_tables(&tables) == Ok(()) // the tables are a valid model
//! check_tables(&tables) == Err(Refusal { code: 509, table: 0x00, row: 1, column: 0 })
//! Cell::Number(0x100).is_of_kind(ColumnKind::U16) // and not of ColumnKind::U8
//! ```
#![tactic(auto)]

mod bytes;
mod cell;
mod cell_checks;
mod column;
mod counted;
mod heads;
mod key_numbers;
mod kinds;
pub mod laws;
mod links;
mod order;
mod signature_checks;
mod table_rows;
mod tables;
mod text;
mod whole;

pub use bytes::Bytes;
pub use cell::Cell;
pub use metadata::Refusal;
pub use order::find_order;
pub use signatures::Signature;
pub use table_rows::Row;
pub use table_schema::{ColumnKind, TableId, Token};
pub use tables::Tables;
pub use text::Text;
pub use whole::check_tables;
