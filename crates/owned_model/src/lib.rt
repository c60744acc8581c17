//! The model of CLI metadata (ECMA-335 II.22 to II.25): valid tables. The tables of each accepted root are valid too.
//! A model owns its content, so the bytes that it was loaded from may be dropped.
//!
//! [`Model::from_tables`] succeeds if and only if the [`Tables`] are valid, and does not allocate. Otherwise it returns
//! them with the first rule that they break. [`Model::of_valid`] takes tables that are known to be valid, and checks
//! nothing. A contract sees a model by its value, so `==` compares versions, user bytes and cells. Runs of members,
//! types by name, rows by key and records of rows are those of a root that is opened in place, by the same code. They
//! do not allocate.
//!
//! [`load_root`] and [`load_image`] return the one model of a metadata root or a file, if it has one.
//! Otherwise they return the fault that opening it returns. They are out of memory only if there is a model.
//! [`ToModel`] makes the model of a view that is already open. A load checks nothing that opening checked.
//!
//! [`rows`] goes over the records of a table of a view or of a model, [`row`] returns one, and [`resolve`] the one that a
//! reference names. They are written once, over [`ReadRows`]. What records hold lives as long as what they are read from:
//! of a view, as long as the bytes that were opened. Nothing is copied or allocated. In place, a signature is its blob.
//! [`cells_of`] returns the cells of one row of a view, whichever table it is in.
//!
//! ```text
//! let (header, model) = load_image(alloc, &file)?;
//! let model = open_root(&root)?.model(alloc)?;
//! for class in rows::<TypeDef, _>(&view) { class.type_name }
//! let method = row::<MethodDef<_>, _>(&model, 1)?; // None if there is no such row
//! match Model::from_tables(tables) {
//!     Ok(model) => model.fields_of(model.find_type("System", "Object")?),
//!     Err((refusal, tables)) => // `refusal.code` of the cell at `refusal.table`, `.row`, `.column`
//! }
//! ```
#![tactic(auto)]

mod cell;
mod coded_rows;
mod error;
pub mod laws;
mod load;
mod lookups;
mod metadata_held;
mod records_left;
mod ref_row;
mod row_values;
mod rows_held;
mod rows_read;
mod table_rows;
mod to_model;
mod valid_model;

pub use coded_rows::resolve;
pub use error::LoadError;
pub use load::{load_image, load_root};
pub use metadata_source::{KeysOf, MemberList, ReadCells, ReadMetadata, SignatureBytes};
pub use reading::{KeyNumbers, KeyRows};
pub use records_left::{Records, row, rows};
pub use ref_row::RefRow;
pub use row_values::cells_of;
pub use rows_read::ReadRows;
pub use tables::{Bytes, Cell, Refusal, Row, Signature, TableId, Tables, Text, Token};
pub use to_model::ToModel;
pub use valid_model::Model;
