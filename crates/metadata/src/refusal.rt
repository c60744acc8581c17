ghost use Rattle.std.specs.Prelude.{◌≡◌};
ghost use Rattle.packed.specs.Codes.{number_of_code};

use packed::FaultCode;
use thiserror::Error;

/// The first rule that the tables of a model break, and the cell where they break it (II.22).
///
/// Table, row and column are 0 if the rule concerns none. Rows are counted from 1. The column is the
/// index of the cell in its row, counted from 0.
#[derive(Clone, Copy, Debug, PartialEq, Eq, Error)]
#[error("rule {code} is broken at table {table}, row {row}, column {column}")]
pub struct Refusal {
    /// The number of the rule, as in a fault; its hundreds are the layer.
    pub code: u16,
    /// The number of the table (II.22).
    pub table: u8,
    /// The row of the table, counted from 1.
    pub row: u32,
    /// The index of the cell in its row, counted from 0.
    pub column: usize,
}

impl Refusal {
    /// The refusal of a rule at a cell.
    pub fn new(code: FaultCode, table: u8, row: u32, column: usize) -> Refusal
        ensures { result ≡ record { code = number_of_code code; table = table; row = row; column = column } }
    {
        Refusal {
            code: code.number(),
            table,
            row,
            column,
        }
    }
}
