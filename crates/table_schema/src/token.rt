ghost use Rattle.std.specs.Prelude.{◌≡◌, Some};
ghost use Rattle.std.specs.Ordering.{nat_cmp, ordering_then};
ghost use Rattle.table_schema.specs.declared.token.Token.{Token as TheToken};
ghost use Rattle.table_schema.specs.Tokens.{token_text};

use crate::table::TableId;
use std::fmt;

/// A row of a table, in the form that code and the CLI header use (III.1.9). Tokens are ordered by table,
/// and then by row.
#[derive(Clone, Copy, Debug, PartialEq, Eq, PartialOrd, Ord, Hash)]
pub struct Token {
    /// The table.
    pub table: TableId,
    /// The row, counted from 1; 0 is null.
    pub row: u32,
}

impl Token {
    ghost use Rattle.std.specs.Prelude.{◌≡◌, ◌≤◌, IfSome};
    ghost use Rattle.table_schema.specs.declared.token.Token.{Token as TheToken};
    ghost use Rattle.table_schema.specs.Tokens.{IsToken};

    /// The token with a number, `None` if the high byte is not the number of a table.
    pub fn from_u32(number: u32) -> Option<Token>
        ensures sound { IfSome result (λ token. IsToken number token) }
        ensures complete { (token : TheToken) → IsToken number token → result ≡ Some token }
    {
        let table = TableId::from_number((number >> 24) as u8)?;
        Some(Token {
            table,
            row: number & 0xFF_FFFF,
        })
    }

    /// The number of the token: the table's number in the high byte, the row in the three bytes below.
    pub fn to_u32(self) -> u32
        requires { self.row ≤ 0xFFFFFF }
        ensures { IsToken result self }
    {
        (self.table.number() as u32) << 24 | self.row
    }
}

/// A token is printed in lower-case hexadecimal: two digits for the table's number and at least six for
/// the row.
impl fmt::Display for Token {
    ghost output = { λ token. Some (token_text token) };

    fn fmt<W: fmt::Write>(&self, f: &mut fmt::Formatter<W>) -> fmt::Result {
        let table = self.table.number();
        let row = self.row;
        write!(f, "{table:02x}{row:06x}")
    }
}

/// Tokens are ordered by table, and then by row.
pub fn tokens_are_in_order()
    ensures { (a b : TheToken) → ⟦<Token as Ord>⟧.cmp a b ≡ ordering_then (⟦<TableId as Ord>⟧.cmp a.table b.table) (nat_cmp a.row b.row) }
{}
