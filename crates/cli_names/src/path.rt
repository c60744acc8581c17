//! Finds the type that a path means: the names of the types that enclose it and its own, with slashes between them
//! (II.22.32, II.22.37).
ghost use Rattle.std.specs.Prelude.{◌≡◌, ◌≤◌, ◌<◌, ◌↔◌, ℕ, IfNone, IfOk, IfSome, IsTrue, map};
ghost use Rattle.std.specs.List.{slice_split};
ghost use Rattle.table_schema.specs.CellColumns.{cell_count};
ghost use Rattle.table_schema.specs.declared.column.ColumnKind.TheVariants as kind;
ghost use Rattle.table_schema.specs.declared.table.TableId.TheVariants.{TypeDef};
ghost use Rattle.metadata.specs.Lookups.{HasRow};
ghost use Rattle.metadata.specs.Metadata.{Metadata};
ghost use Rattle.metadata.specs.Model.{IsModel};
ghost use Rattle.metadata.specs.Valid.{kind_at};
ghost use Rattle.opening.specs.Views.{row_count};
ghost use Rattle.cli_names.specs.Paths.{HasAllParts, HasName, HasOwnName, HasPath, IsAround, IsBare, IsMeant, IsNext, IsOutside, is_slash};

use crate::names::names_of_type;
use navigation::{enclosing_type, enclosing_type_ref};
use opening::{ReadMetadata, TableId, View};
use std::alloc::{AllocError, Global};

/// The cell of the name of a row of TypeDef or TypeRef (II.22.37, II.22.38).
const NAME: usize = 1;

/// The cell of its namespace.
const NAMESPACE: usize = 2;

/// The parts of a path.
pub(crate) fn parts_of<'p>(alloc: Global, path: &'p str) -> Result<Vec<&'p str>, AllocError>
    ensures { IfOk result (λ parts. map (λ part. part.now) parts.items ≡ slice_split is_slash path.now) }
{
    path.split('/').collect(alloc)
}

/// Whether a row of TypeDef or TypeRef has the name that a part of a path is, after its namespace and a dot.
fn has_own_name(view: &View<'_>, table: TableId, row: u32, part: &str) -> bool
    requires first { 1 ≤ row }
    requires last { row ≤ row_count view.now table }
    requires texts { (2 < cell_count table) × (kind_at table 1 ≡ kind.Text) × (kind_at table 2 ≡ kind.Text) }
    ensures { (model : Metadata) → IsModel view.now model → IsTrue result ↔ HasOwnName model table part.now row }
{
    let (namespace, name) = names_of_type(part);
    view.is_text(table, row, NAME, name) && view.is_text(table, row, NAMESPACE, namespace)
}

/// The row outside of a row: of a TypeDef the type that encloses it, of a TypeRef its scope, if that is a TypeRef too. If NestedClass is
/// not in the order of its key (II.22), nothing encloses a type, because then each look-up would pass over the table.
fn outer_row(view: &View<'_>, table: TableId, row: u32) -> Option<u32>
    requires first { 1 ≤ row }
    requires last { row ≤ row_count view.now table }
    ensures around { (model : Metadata) → IsModel view.now model → IsAround (IsOutside model table) row result }
    ensures first { IfSome result (λ outer. 1 ≤ outer) }
    ensures last { IfSome result (λ outer. outer ≤ row_count view.now table) }
{
    match table {
        TableId::TypeDef => {
            if !view.in_order(TableId::NestedClass) {
                return None;
            }
            enclosing_type(view, row)
        }
        TableId::TypeRef => enclosing_type_ref(view, row),
        _ => None,
    }
}

/// Whether these parts of a path are the names of a row and of those outside of it. The scopes of TypeRefs may go in a circle, but
/// no more rows are looked at than there are parts.
pub(crate) fn has_parts(view: &View<'_>, table: TableId, parts: &[&str], row: u32) -> bool
    requires first { 1 ≤ row }
    requires last { row ≤ row_count view.now table }
    requires texts { (2 < cell_count table) × (kind_at table 1 ≡ kind.Text) × (kind_at table 2 ≡ kind.Text) }
    ensures { (model : Metadata) → IsModel view.now model → IsTrue result ↔ HasAllParts model table (map (λ part. part.now) parts.now) row }
{
    let mut left = Some(row);
    for below in 0..parts.len() {
        let Some(inner) = left else {
            return false;
        };
        let part = parts[parts.len() - 1 - below];
        if !has_own_name(view, table, inner, part) {
            return false;
        }
        left = outer_row(view, table, inner);
    }
    left.is_none()
}

/// The first type with a path; `None` if no type has it.
///
/// # Errors
///
/// Out of memory.
#[tactic(auto, unfolding(table_schema::specs::CellColumns::cell_columns))]
fn first_at(alloc: Global, view: &View<'_>, path: &str) -> Result<Option<u32>, AllocError>
    ensures sound { (model : Metadata) → IsModel view.now model → IfOk result (λ found. IfSome found (IsNext model (HasPath model path.now) 0)) }
    ensures none { (model : Metadata) → IsModel view.now model → IfOk result (λ found. IfNone found ((row : ℕ) → HasRow model TypeDef row → ¬ HasPath model path.now row)) }
    ensures first { IfOk result (λ found. IfSome found (λ row. 1 ≤ row)) }
    ensures last { IfOk result (λ found. IfSome found (λ row. row ≤ row_count view.now TypeDef)) }
{
    let parts = parts_of(alloc, path)?;
    for row in 1..view.count(TableId::TypeDef) + 1 {
        if has_parts(view, TableId::TypeDef, parts.as_slice(), row) {
            return Ok(Some(row));
        }
    }
    Ok(None)
}

/// The first type with a name, whatever encloses it, after a row; `None` if there is none.
#[tactic(auto, unfolding(table_schema::specs::CellColumns::cell_columns))]
fn named_after(view: &View<'_>, name: &str, after: u32) -> Option<u32>
    ensures sound { (model : Metadata) → IsModel view.now model → IfSome result (IsNext model (HasName model name.now) after) }
    ensures none { (model : Metadata) → IsModel view.now model → IfNone result ((row : ℕ) → HasRow model TypeDef row → after < row → ¬ HasName model name.now row) }
    ensures first { IfSome result (λ row. after < row) }
    ensures last { IfSome result (λ row. row ≤ row_count view.now TypeDef) }
{
    for earlier in after..view.count(TableId::TypeDef) {
        if view.is_text(TableId::TypeDef, earlier + 1, NAME, name) {
            return Some(earlier + 1);
        }
    }
    None
}

/// Whether a path is a name alone.
fn is_bare(path: &str) -> bool
    ensures { IsTrue result ↔ IsBare path.now }
{
    path.as_bytes()
        .iter()
        .all(|byte| *byte != b'.' && *byte != b'/')
}

/// The type that a path means: the first that has it, or else the only type with this name, if the path is a name alone.
///
/// # Errors
///
/// Out of memory.
pub(crate) fn type_meant(
    alloc: Global,
    view: &View<'_>,
    path: &str,
) -> Result<Option<u32>, AllocError>
    ensures sound { (model : Metadata) → IsModel view.now model → IfOk result (λ found. IfSome found (IsMeant model path.now)) }
    ensures none { (model : Metadata) → IsModel view.now model → IfOk result (λ found. IfNone found ((row : ℕ) → ¬ IsMeant model path.now row)) }
    ensures first { IfOk result (λ found. IfSome found (λ row. 1 ≤ row)) }
    ensures last { IfOk result (λ found. IfSome found (λ row. row ≤ row_count view.now TypeDef)) }
{
    if let Some(row) = first_at(alloc, view, path)? {
        return Ok(Some(row));
    }
    if !is_bare(path) {
        return Ok(None);
    }
    let Some(first) = named_after(view, path, 0) else {
        return Ok(None);
    };
    match named_after(view, path, first) {
        Some(_) => Ok(None),
        None => Ok(Some(first)),
    }
}
