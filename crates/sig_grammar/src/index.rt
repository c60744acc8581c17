ghost use Rattle.std.specs.Prelude.{◌≡◌};
ghost use Rattle.sig_grammar.specs.Reading.{token_of};
ghost use Rattle.sig_grammar.specs.Encodes.{has_row};

use crate::laws;
use table_schema::{Coded, Token, split};

/// The token that a type index encodes (II.23.2.8): a row of TypeDef, TypeRef or TypeSpec. `None` if its tag is 3.
pub fn token_of_index(number: u32) -> Option<Token>
    ensures { result ≡ token_of number }
{
    laws::indexes_are_read();
    let (table, row) = split(Coded::TypeDefOrRef, number)?;
    Some(Token { table, row })
}

/// Whether the row of the token exists in its table.
///
/// `counts` gives the number of rows of each table by table number. Row 0 never exists.
pub fn names_row(token: Token, counts: &[u32; 45]) -> bool
    ensures { result ≡ has_row counts.now token }
{
    0 < token.row && token.row <= counts[token.table.number() as usize]
}
