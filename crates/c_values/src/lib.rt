//! The values that the C interface passes, and what it makes of them (ECMA-335 II.22 to II.25).
//!
//! A [`ClimRow`] has the number of its table and its cells, in the order of the columns. [`root_of`] reads the rows into
//! tables, checks the tables, and makes their canonical root. Rows of different tables may be mixed. Nothing is assumed of
//! what is given: [`NoRoot`] says what is refused first. [`write_copy`] writes a copy of a file with another root.
//! [`reported_difference`] is the first difference of two models, [`reported_header`] a CLI header, and [`location_at`] the
//! cell that has a byte of a root.
//!
//! ```text
//! let root = root_of(alloc, b"v4.0.30319", &[], &rows)?;
//! root_of(alloc, &[0xFF], &[], &rows) // Err(NoRoot::Refused(Refusal { code: 302, table: 0, row: 0, column: 0 }))
//! ```
//!
//! The values of custom attributes for a C caller (ECMA-335 II.22.10 and II.23.3).
//!
//! [`write_value`] reads the value of an attribute by the types of its constructor's parameters, and writes its items into
//! the caller's array, in the order of the blob: a [`ClimAttributeItem`] for each item of `blob_values`. Texts are
//! borrowed from the view. Nothing here allocates. The time is linear in the blob; `custom_attributes` says what finding
//! the types takes.
//!
//! ```text
//! // [assembly: Foo("hi", Count = 5)]
//! write_value(&view, row, &mut items) == Some(3) // a fixed string, the number of named arguments, and a property
//! ```
#![tactic(auto)]

mod cell;
mod cell_kind;
mod copies;
mod difference;
mod header;
mod item;
pub mod laws;
mod located;
mod made_root;
mod no_root;
mod read_cell;
mod read_rows;
mod refusal;
mod reported;
mod row;
mod values;

pub use cell::ClimCell;
pub use copies::{
    BAD_FILE, BAD_ROOT, HEADERS_OVERLAP, NO_ROOM, OCCUPIED, UNLIKE, strong_name_of, write_copy,
};
pub use difference::{ClimDifference, reported_difference};
pub use embedding::{EmbedError, StrongName};
pub use header::{ClimDirectory, ClimHeader, reported_header};
pub use item::ClimAttributeItem;
pub use located::{ClimLocation, location_at};
pub use made_root::root_of;
pub use metadata::Refusal;
pub use no_root::NoRoot;
pub use refusal::ClimRefusal;
pub use row::ClimRow;
pub use values::{NOT_DECODED, write_value};
pub use writer::Prepared;
