ghost use Rattle.std.specs.Prelude.{◌≡◌, ◌≤◌, ◌↔◌, IsTrue, IfSome, IfNone, Some};
ghost use Rattle.metadata.specs.Cell.{Ref};
ghost use Rattle.metadata.specs.Kinds.{IsOfKind};
ghost use Rattle.metadata.specs.KeyOrder.{row_number as number_of_row};

use metadata::row_number;
use table_schema::{ColumnKind, Token, lists};

/// The number by which a column of a kind refers to a row (II.24.2.6), `None` if it takes no reference
/// to the row's table.
pub fn number_of(kind: ColumnKind, token: Token) -> Option<u32>
    requires { token.row ≤ 0xFFFFFF }
    ensures number { IfSome result (λ number. number ≡ number_of_row kind token) }
    ensures taken { IfSome result (λ _. IsOfKind kind (Ref (Some token))) }
    ensures none { IfNone result (¬ IsOfKind kind (Ref (Some token))) }
{
    if takes(kind, token) {
        Some(row_number(kind, token) as u32)
    } else {
        None
    }
}

/// Whether a column of a kind takes a reference to a row.
fn takes(kind: ColumnKind, token: Token) -> bool
    ensures { IsTrue result ↔ IsOfKind kind (Ref (Some token)) }
{
    match kind {
        ColumnKind::Row(table) => table == token.table,
        ColumnKind::Coded(coded) => lists(coded.tables(), token.table),
        _ => false,
    }
}
