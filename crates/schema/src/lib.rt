//! The metadata tables: their columns, and the offset of each cell of a table stream (ECMA-335 II.22
//! and II.24.2.6).
//!
//! [`columns`], [`key`] and [`Coded`] are the tables and lists of the standard. [`split`] and [`join`]
//! convert between a coded index and the row that it refers to. A [`Token`] is a row in four bytes.
//! [`Layout::read`] succeeds if and only if the bytes are a table stream. Otherwise it returns the
//! fault of the first broken rule. A layout has the widths and offsets ready, so it does not search
//! for them. Nothing here allocates.
//!
//! [`cell_at`] returns the cell that has the byte at an offset of the table stream, and `None` if and only if no cell has
//! it. At most one has it. [`column_names`] returns the names of the columns of a table, as the standard writes them.
//!
//! ```text
//! let layout = Layout::read(stream)?;
//! layout.count(TableId::TypeDef) == 3 && layout.row_width(TableId::TypeDef) == 14
//! split(Coded::HasCustomAttribute, 46) == Some((TableId::Assembly, 1))
//! cell_at(&layout, 32) == Some(TableCell { table: TableId::Module, row: 1, column: 2 })
//! ```
#![tactic(auto)]

mod bit_laws;
mod field_laws;
mod header;
pub mod laws;
mod layout;
mod located_cells;
mod location_laws;
mod name_lists;
mod read;
mod read_laws;
mod table_layout;

pub use layout::Layout;
pub use located_cells::{TableCell, cell_at};
pub use name_lists::column_names;
pub use packed::{Fault, FaultCode};
pub use table_schema::{
    Coded, Column, ColumnKind, SigKind, TableId, Token, cell_count, column_of_cell, columns, join,
    key, split,
};
