ghost use Rattle.std.specs.Prelude.{◌≡◌, unwrap_or, option_map};
ghost use Rattle.std.specs.Option.{option_copied};
ghost use Rattle.tables.specs.Said.{said};
ghost use Rattle.metadata.specs.Cell.{Number as NumberCell};
ghost use Rattle.metadata.specs.KeyOrder.{key_number};

use crate::Cell;
use metadata::row_number;
use table_schema::ColumnKind;

/// The number of a reference in a column of a kind (II.24.2.6); 0 for null, any other cell or no cell.
pub fn key_number(kind: ColumnKind, cell: Option<&Cell>) -> u64
    ensures { result ≡ key_number kind (unwrap_or (option_map said (option_copied cell.entry)) (NumberCell 0)) }
{
    match cell {
        Some(Cell::Ref(Some(token))) => row_number(kind, *token),
        _ => 0,
    }
}
