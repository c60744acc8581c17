ghost use Rattle.std.specs.Prelude.{◌≡◌, Some, IfSome};
ghost use Rattle.table_schema.specs.declared.token.Token.{Token as TheToken};
ghost use Rattle.table_schema.specs.CodedIndexes.{IsCoded};

use table_schema::{Coded, Token, split};

/// The row that a coded index names (II.24.2.6). Its row is 0 if the index is null. `None` if its tag is not
/// used.
pub fn named_by(coded: Coded, number: u32) -> Option<Token>
    ensures sound { IfSome result (λ token. IsCoded coded number token.table token.row) }
    ensures complete { (token : TheToken) → IsCoded coded number token.table token.row → result ≡ Some token }
{
    let (table, row) = split(coded, number)?;
    Some(Token { table, row })
}
