//! How many rows a table has that does not have the row of a token.
use cli_faults::{Failure, Stop};
use cli_files::{Input, open};
use cli_sending::send_message;
use opening::{TableId, Token, View};
use std::alloc::Global;
use std::fmt;
use std::io::Write;

/// Why a row was not printed: the table that does not have it, and its row count, if the token names a table. `Display` gives the
/// lines for standard error.
#[derive(Clone, Copy)]
struct MissingRow(Option<(TableId, u32)>);

impl fmt::Display for MissingRow {
    fn fmt<W: fmt::Write>(&self, f: &mut fmt::Formatter<W>) -> fmt::Result {
        write!(f, "{}\n", Stop::Failed(Failure::NoSuchRow))?;
        match &self.0 {
            Some((table, 1)) => write!(f, "  hint: {} has 1 row\n", table.name()),
            Some((table, rows)) => write!(f, "  hint: {} has {rows} rows\n", table.name()),
            None => Ok(()),
        }
    }
}

/// The table of the first token without a row, and its row count. `None` if no table has its number, as of a user string (III.1.9).
fn table_without_row(view: &View<'_>, numbers: &[u32]) -> Option<(TableId, u32)> {
    for number in numbers {
        let Token { table, row } = Token::from_u32(*number)?;
        let rows = view.count(table);
        if row == 0 || row > rows {
            return Some((table, rows));
        }
    }
    None
}

/// Reports that a token names no row, with the number of rows of its table. If the report cannot be written, nothing else
/// changes.
pub fn report_missing_row<E: Write>(
    alloc: Global,
    bytes: &[u8],
    input: Input,
    numbers: &[u32],
    err: &mut E,
) {
    let table = match open(bytes, input) {
        Ok(view) => table_without_row(&view, numbers),
        Err(_) => None,
    };
    let _ = send_message(alloc, &MissingRow(table), err);
}
