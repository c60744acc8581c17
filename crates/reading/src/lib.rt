//! Reads the tables of a metadata root in place (ECMA-335 II.22).
//!
//! A [`Source`] holds the rows of a table stream, and the heaps. It returns the numbers of columns, whether
//! whether or not they stand for cells, and [`cell_of`] the cell of a number that stands for one.
//! [`Starts`] gives all starts of a column in one walk, [`KnownRuns`] keeps some of them for single look-ups
//! by [`start_at`], and [`RunCursors`] give them in a pass over the rows, as [`cell_onward`] does.
//! [`KeyRows`] are found by binary search over any [`KeyNumbers`]. Nothing here allocates.
//!
//! ```text
//! let source = Source::new(rows, Strings::new(texts), blobs, guids, offset);
//! let number = source.number(TableId::TypeDef, 1, 4);
//! ```
#![tactic(auto)]

mod cell;
mod cell_ref;
mod coded;
mod column;
mod kept_starts;
mod key_numbers;
mod key_rows;
mod known_starts;
mod run_cursors;
mod runs_of;
mod source;
mod start_cursor;
mod starts;
mod text_tests;

pub use cell::{cell_of, cell_of_kind, cell_onward};
pub use cell_ref::CellRef;
pub use coded::named_by;
pub use column::column_at;
pub use kept_starts::known_runs;
pub use key_numbers::KeyNumbers;
pub use key_rows::KeyRows;
pub use known_starts::{KnownRuns, KnownStarts};
pub use run_cursors::RunCursors;
pub use runs_of::{start_at, start_before};
pub use source::Source;
pub use start_cursor::StartCursor;
pub use starts::{Starts, starts_of};
pub use text_tests::is_text_at;
