//! The columns that arguments name.
ghost use Rattle.std.specs.Prelude.{ℕ, IfErr, IfNone, IfOk, IfSome};
ghost use Rattle.table_schema.specs.declared.table.TableId.{TableId as Table};
ghost use Rattle.cli.specs.Columns.{AreNamed, NamesColumn, NamesSome};
ghost use Rattle.cli.specs.Tasks.{IsFirstUnknown};

use cli_cells::column_name;
use cli_names::table_named;
use comparison::IgnoredColumns;
use table_schema::{TableId, cell_count};

/// The columns that arguments name, each by the name of its table, a dot and its own name, in any case (II.22).
///
/// # Errors
///
/// The first argument that names no column.
pub(crate) fn columns_of<'a>(words: &[&'a str]) -> Result<IgnoredColumns, &'a str>
    ensures named { IfOk result (AreNamed words.now) }
    ensures unknown { IfErr result (IsFirstUnknown NamesSome words.now) }
{
    table_schema::laws::tables_stand();
    comparison::laws::models_equal_but_for_no_columns_are_equal();
    let mut ignored = IgnoredColumns::none();
    for word in words {
        let Some((table, cell_index)) = column_named(word) else {
            return Err(word);
        };
        ignored.insert(table, cell_index);
    }
    Ok(ignored)
}

/// The column that an argument names: its table, and the index of its cell in a row, from 0.
fn column_named(word: &str) -> Option<(TableId, usize)>
    ensures sound { IfSome result (λ column. NamesColumn word.now column.0 column.1) }
    ensures complete { IfNone result ((table : Table) (cell_index : ℕ) → ¬ NamesColumn word.now table cell_index) }
{
    let Some((first, name)) = word.split_once('.') else {
        return None;
    };
    let Some(table) = table_named(first) else {
        return None;
    };
    for cell_index in 0..cell_count(table) {
        if name.eq_ignore_ascii_case(column_name(table, cell_index)) {
            return Some((table, cell_index));
        }
    }
    None
}
