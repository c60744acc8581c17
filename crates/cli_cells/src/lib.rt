//! Prints the rows of tables (ECMA-335 II.22): of a whole root, or those before the first broken rule.
//!
//! [`print_show`] prints tables, [`print_until_fault`] prints what precedes the first broken rule, and [`print_tokens`] prints
//! the rows and the user strings that tokens name. `specs/RowLines.antt` and `specs/TokenLines.antt` define the lines. All
//! of them hand their lines to a [`Printer`](cli_lines::Printer), which prints text or JSON.
//!
//! ```text
//! print_show(rt.alloc(), &view, TableId::all(), Names::Hidden, &mut out);
//! print_until_fault(rt.alloc(), &file, Input::File, &[TableId::TypeDef], Names::Shown, &mut out)?;
//! print_tokens(rt.alloc(), &view, &[0x0200_0001, 0x7000_0001], &mut out)?;
//! ```
#![tactic(auto)]

mod cells;
mod row_lines;
mod shown_rows;
mod tokens;
mod until_fault;

pub use cells::{column_name, print_cell};
pub use row_lines::{Names, print_show};
pub use shown_rows::ShownRows;
pub use tokens::print_tokens;
pub use until_fault::print_until_fault;
