//! What differs between two views, up to a limit, and whether anything does.
ghost use Rattle.std.specs.Prelude.{◌≡◌, ◌↔◌, ◌∷◌, [], All, IfNone, IfOk, IfSome, IsTrue, take};
ghost use Rattle.std.specs.List.{flat_map};
ghost use Rattle.table_schema.specs.Tables.{tables};
ghost use Rattle.metadata.specs.Metadata.{Metadata};
ghost use Rattle.metadata.specs.Model.{IsModel};
ghost use Rattle.comparison.specs.Differences.{IsThere, count_difference, first_differences, first_differences_but, outline_differences};

use crate::cells::{differing_cells, differing_cells_but};
use crate::difference::Difference;
use crate::ignored::IgnoredColumns;
use crate::laws;
use heap_entries::same_padded;
use opening::{TableId, View};
use std::alloc::{AllocError, Global};

/// What differs between two views, in order: the first of version, user strings and row counts that differs, if one does,
/// and then the first cells that differ, at most `limit`. If `limit` is not 0, there is none if and only if the views
/// have the same model.
///
/// The cells are compared as [`differing_cells`](crate::differing_cells) does.
///
/// # Errors
///
/// Only if out of memory.
pub fn differences(
    alloc: Global,
    left: &View<'_>,
    right: &View<'_>,
    limit: usize,
) -> Result<Vec<Difference>, AllocError>
    ensures sound { (first second : Metadata) → IsModel left.now first → IsModel right.now second
        → IfOk result (λ found. found.items ≡ first_differences first second limit) }
    ensures there { IfOk result (λ found. All (IsThere left.now right.now) found.items) }
{
    differences_but(alloc, left, right, &IgnoredColumns::none(), limit)
}

/// What differs between two views, as [`differences`] finds it, but for the cells of ignored columns: these are not
/// compared. If `limit` is not 0, there is none if and only if the models of the views are equal but for these cells.
///
/// # Errors
///
/// Only if out of memory.
pub fn differences_but(
    alloc: Global,
    left: &View<'_>,
    right: &View<'_>,
    ignored: &IgnoredColumns,
    limit: usize,
) -> Result<Vec<Difference>, AllocError>
    ensures sound { (first second : Metadata) → IsModel left.now first → IsModel right.now second
        → IfOk result (λ found. found.items ≡ first_differences_but ignored.now first second limit) }
    ensures there { IfOk result (λ found. All (IsThere left.now right.now) found.items) }
{
    let mut cells = differing_cells_but(alloc, left, right, ignored, limit)?;
    let Some(first) = outline_difference(left, right) else {
        return Ok(cells);
    };
    cells.insert(0, first)?;
    Ok(cells)
}

/// Whether two views have the same model. Then their canonical roots are the same bytes.
///
/// If the roots have the same bytes, no cell is read. Otherwise cells are read up to the first that differs, and none of
/// a table or a row whose bytes show that it is the same.
///
/// # Errors
///
/// Only if out of memory.
pub fn is_equal(alloc: Global, left: &View<'_>, right: &View<'_>) -> Result<bool, AllocError>
    ensures { (first second : Metadata) → IsModel left.now first → IsModel right.now second
        → IfOk result (λ equal. IsTrue equal ↔ (first ≡ second)) }
{
    laws::models_without_differences_are_equal();
    metadata::laws::models_of_roots_are_valid();
    match outline_difference(left, right) {
        Some(_) => Ok(false),
        None => {
            let found = differing_cells(alloc, left, right, 1)?;
            Ok(found.is_empty())
        }
    }
}

/// The first of these that differs between two views: the version, the user strings, and the numbers of rows in the
/// order of the tables. `None` if none of them differs. It does not allocate.
pub fn outline_difference(left: &View<'_>, right: &View<'_>) -> Option<Difference>
    ensures first { (first second : Metadata) → IsModel left.now first → IsModel right.now second
        → IfSome result (λ difference. take 1 (outline_differences first second) ≡ difference ∷ []) }
    ensures there { IfSome result (IsThere left.now right.now) }
    ensures none { (first second : Metadata) → IsModel left.now first → IsModel right.now second
        → IfNone result (outline_differences first second ≡ []) }
{
    if left.version() != right.version() {
        return Some(Difference::Version);
    }
    if !same_padded(left.user(), right.user()) {
        return Some(Difference::UserStrings);
    }
    count_difference(left, right)
}

/// The first table whose numbers of rows differ, with these.
fn count_difference(left: &View<'_>, right: &View<'_>) -> Option<Difference>
    ensures first { (first second : Metadata) → IsModel left.now first → IsModel right.now second
        → IfSome result (λ difference. take 1 (flat_map (count_difference first second) tables) ≡ difference ∷ []) }
    ensures there { IfSome result (IsThere left.now right.now) }
    ensures none { (first second : Metadata) → IsModel left.now first → IsModel right.now second
        → IfNone result (flat_map (count_difference first second) tables ≡ []) }
{
    for table in TableId::all() {
        let (left_count, right_count) = (left.count(*table), right.count(*table));
        if left_count != right_count {
            return Some(Difference::RowCount {
                table: *table,
                left: left_count,
                right: right_count,
            });
        }
    }
    None
}
