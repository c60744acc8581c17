//! The visible types (II.23.1.15), by the types that enclose others (II.22.32).
ghost use Rattle.std.specs.Prelude.{◌≡◌, IfOk, length, ◌≤◌, ◌+◌, map, slice_index_or, false};
ghost use Rattle.std.specs.List.{range_with_len};
ghost use Rattle.table_schema.specs.declared.table.TableId.TheVariants.{TypeDef};
ghost use Rattle.metadata.specs.Metadata.{Metadata};
ghost use Rattle.metadata.specs.Model.{IsModel};
ghost use Rattle.opening.specs.Views.{row_count};
ghost use Rattle.visible_rows.specs.Visible.{AreOuters, AreVisibleTypes, is_visible_type, outer_of};

use crate::access::{access, is_visible_by};
use navigation::cells::target;
use opening::{TableId, View};
use std::alloc::{AllocError, Global};

/// The cell of the flags of a type (II.22.37).
const FLAGS: usize = 0;

/// The cells of NestedClass: the nested type, and the type that encloses it.
const NESTED: usize = 0;

const ENCLOSING: usize = 1;

/// The type that encloses each type, or 0 if there is none. NestedClass may be in any order, and may have a type more than once:
/// the first row of a type is read last.
///
/// # Errors
///
/// Out of memory.
#[tactic(auto, unfolding(table_schema::specs::CellColumns::cell_columns))]
fn outers_of(alloc: Global, view: &View<'_>) -> Result<Vec<u32>, AllocError>
    ensures len { IfOk result (λ outers. length outers.items ≡ row_count view.now TypeDef) }
    ensures outers { IfOk result (λ outers. AreOuters view.now outers.items) }
{
    let mut outers = vec![in alloc; 0; view.count(TableId::TypeDef) as usize]?;
    let count = view.count(TableId::NestedClass);
    for later in 0..count {
        let row = count - later;
        let nested = target(view, TableId::TypeDef, TableId::NestedClass, row, NESTED);
        let outer = target(view, TableId::TypeDef, TableId::NestedClass, row, ENCLOSING);
        outers[nested as usize - 1] = outer;
    }
    Ok(outers)
}

/// Whether the type in a row is visible, by what is known of the rows before; 0 is no row.
fn is_known(earlier: &[bool], row: u32) -> bool
    ensures { result ≡ slice_index_or earlier.now row false }
{
    earlier.get(row as usize).copied().unwrap_or(false)
}

/// Whether a type is visible, by the type that encloses it, and what is known of the rows before.
#[tactic(auto, unfolding(table_schema::specs::CellColumns::cell_columns))]
fn is_visible_type(view: &View<'_>, outer: u32, earlier: &[bool], row: u32) -> bool
    requires first { 1 ≤ row }
    requires last { row ≤ row_count view.now TypeDef }
    ensures { (model : Metadata) → IsModel view.now model → outer ≡ outer_of model row → earlier.now ≡ map (is_visible_type model) (range_with_len 0 row)
        → result ≡ is_visible_type model row }
{
    metadata::laws::models_of_roots_are_valid();
    let access = access(view, TableId::TypeDef, row, FLAGS);
    is_visible_by(access, is_known(earlier, outer))
}

/// Whether each type is visible, in the order of the rows: a type comes after the one that encloses it. The first result is that
/// of row 0, where no type is.
///
/// # Errors
///
/// Out of memory.
pub(crate) fn visible_types(alloc: Global, view: &View<'_>) -> Result<Vec<bool>, AllocError>
    ensures { IfOk result (λ types. AreVisibleTypes view.now types.items) }
{
    let outers = outers_of(alloc, view)?;
    let count = view.count(TableId::TypeDef);
    let mut visible = Vec::with_capacity(alloc, count as usize + 1)?;
    visible.push(false)?;
    for earlier in 0..count {
        let outer = outers[earlier as usize];
        let is_visible = is_visible_type(view, outer, &visible, earlier + 1);
        visible.push(is_visible)?;
    }
    Ok(visible)
}
