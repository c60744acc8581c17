ghost use Rattle.std.specs.Prelude.{◌≡◌, ◌≤◌};
ghost use Rattle.metadata.specs.KeyOrder.{row_number as number_of_row};

use table_schema::{ColumnKind, Token};

/// The number by which a column of a kind refers to a row (II.24.2.6).
pub fn row_number(kind: ColumnKind, token: Token) -> u32
    requires { token.row ≤ 0xFFFFFF }
    ensures { result ≡ number_of_row kind token }
{
    metadata::row_number(kind, token) as u32
}
