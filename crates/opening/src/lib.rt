//! Opens the metadata of a root or a file in place (ECMA-335 II.22 to II.25).
//!
//! [`open_root`] and [`open_image`] check every rule for the bytes, and do not allocate. They succeed if and only if
//! the bytes have a model. Otherwise they return the fault of the first rule that fails. [`open_root_within`] and
//! [`open_image_within`] do the same within a budget of bytes to check. A [`View`] reads the one model of the bytes:
//! its version, its user strings, its cells, the runs of members, and rows by name and by key. It returns values and
//! parts of the caller's bytes. A [`CellCursor`] reads the cells in a pass over the rows. [`number_or_zero`],
//! [`text_or_empty`] and others read a cell of one kind. [`read_heads`] reads only the headers before the streams of a
//! file. [`read_source_of_root`] and [`read_source_of_image`] read the rows of bytes that break a rule for cells or a
//! later one.
//!
//! ```text
//! let (header, view) = open_image(&file)?;
//! let row = view.find_type("System", "Object")?;
//! for field in view.fields_of(row) { view.cell(TableId::Field, field, 1) }
//! ```
#![tactic(auto)]

mod cell_cursor;
mod cell_values;
mod found;
mod heads;
mod image;
mod metadata_held;
mod open;
mod view;

pub use cell_cursor::CellCursor;
pub use cell_values::{
    bytes_or_empty, guid_or_null, number_or_zero, reference_or_null, text_or_empty,
};
pub use checks::BoundedError;
pub use cli_header::CliHeader;
pub use found::Found;
pub use heads::{Heads, read_heads};
pub use image::{open_image, open_image_within, read_source_of_image};
pub use metadata_source::{KeysOf, MemberList, ReadCells, ReadMetadata, SignatureBytes};
pub use open::{open_root, open_root_within, read_source_of_root, view_again};
pub use packed::{Fault, FaultCode};
pub use pe::Pe;
pub use reading::{CellRef, KeyNumbers, KeyRows, Source, Starts};
pub use root::Root;
pub use table_schema::{ColumnKind, TableId, Token};
pub use view::View;
