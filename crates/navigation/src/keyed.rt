//! Rows in the order of a number that each of them has, such as the number of a reference.
ghost use Rattle.std.specs.Prelude.{◌≡◌, ℕ, OnOk, filter};
ghost use Rattle.std.specs.List.Sorted.{IsNonDecreasingBy};
ghost use Rattle.navigation.specs.Keyed.{has_key, key_of};

use std::alloc::AllocError;

/// A row with a number that it has.
#[derive(Clone, Copy)]
pub struct KeyedRow {
    /// The number.
    pub key: u32,
    /// The row.
    pub row: u32,
}

/// Sorts rows by their numbers. Rows with the same number stay in their order.
///
/// # Errors
///
/// Out of memory.
pub fn sort_by_key(rows: &mut Vec<KeyedRow>) -> Result<(), AllocError>
    ensures sorted { OnOk result (IsNonDecreasingBy key_of rows.new.items) }
    ensures stable { OnOk result ((key : ℕ) → filter (has_key key) rows.new.items ≡ filter (has_key key) rows.old.items) }
{
    rows.sort_by_key(|row| row.key)?;
    Ok(())
}

/// The rows with a number, by binary search.
pub fn with_key(rows: &[KeyedRow], key: u32) -> &[KeyedRow]
    requires { IsNonDecreasingBy key_of rows.now }
    ensures { result.now ≡ filter (has_key key) rows.now }
{
    let (_, from) = rows.split_at(rows.partition_point(|row| row.key < key));
    from.split_at(from.partition_point(|row| row.key <= key)).0
}
