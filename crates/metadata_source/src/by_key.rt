ghost use Rattle.std.specs.Prelude.{◌≡◌, ◌≢◌, ◌≤◌, ◌+◌, ◌*◌, ◌↔◌, ℕ, Some, IsSome, IfSome, IfNone};
ghost use Rattle.std.specs.List.{Contains};
ghost use Rattle.std.specs.List.Sorted.{IsStrictlyIncreasing};
ghost use Rattle.rows.specs.Keys.{binary_digits};
ghost use Rattle.table_schema.specs.Columns.{key_of};
ghost use Rattle.metadata.specs.Cell.{Ref};
ghost use Rattle.metadata.specs.Metadata.{Metadata, count_in, cell_in};
ghost use Rattle.metadata.specs.Lookups.{HasRow, HasKey, IsKeyCell};
ghost use Rattle.metadata.specs.KeyOrder.{key_in, IsKeyOrdered};

use crate::key_cells::{key_cell, kind_of};
use crate::keys_of::KeysOf;
use crate::row_numbers::number_of;
use crate::source::ReadMetadata;
use reading::KeyRows;
use table_schema::{TableId, Token};

/// The rows of a table whose key is a token, from the lowest on (II.22).
///
/// If the table is in order, they are found by binary search, and [`KeyRows::reads`] is the number of keys
/// that were read. Otherwise the iterator looks at each row. A null token has no rows, nor has one that the
/// key column cannot name.
pub fn rows_by_key<S: ReadMetadata>(
    source: &S,
    table: TableId,
    token: Token,
) -> KeyRows<KeysOf<'_, S>>
    requires { IsSome (key_of table) }
    ensures ascending { IsStrictlyIncreasing result.rows }
    ensures rows { (model : Metadata) → S.shows source.now model → (row : ℕ)
        → Contains result.rows row ↔ (HasRow model table row × HasKey model table token row) }
    ensures bounded { (model : Metadata) → S.shows source.now model → IsKeyOrdered model table
        → result.reads ≤ 2 * binary_digits (count_in model table) + 2 }
    ensures walked { (model : Metadata) → S.shows source.now model → ¬ IsKeyOrdered model table → result.reads ≡ 0 }
{
    source.holds_one();
    let cell = key_cell(table);
    let keys = KeysOf {
        source,
        table,
        cell,
    };
    let Some(number) = key_number(source, table, cell, token) else {
        return KeyRows::none(keys);
    };
    if source.in_order(table) {
        KeyRows::search(keys, number)
    } else {
        KeyRows::walk(keys, number)
    }
}

/// The number of a key that is a token, `None` if no row has such a key.
fn key_number<S: ReadMetadata>(source: &S, table: TableId, cell: usize, token: Token) -> Option<u32>
    requires { IsKeyCell table cell }
    ensures sound { (model : Metadata) → S.shows source.now model → IfSome result (λ number. (row : ℕ) → HasRow model table row
        → (cell_in model table row cell ≡ Ref (Some token)) ↔ (key_in model table cell row ≡ number)) }
    ensures none { (model : Metadata) → S.shows source.now model
        → IfNone result ((row : ℕ) → HasRow model table row → cell_in model table row cell ≢ Ref (Some token)) }
{
    metadata::laws::key_numbers_are_one();
    source.holds_one();
    if token.row == 0 || source.count(token.table) < token.row {
        return None;
    }
    number_of(kind_of(table, cell), token)
}
