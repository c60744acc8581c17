//! Who can refer to a row (II.23.1.5, II.23.1.9, II.23.1.10, II.23.1.15).
ghost use Rattle.std.specs.Prelude.{◌≡◌, ◌≤◌, ◌<◌, ◌&&◌, ◌||◌};
ghost use Rattle.table_schema.specs.CellColumns.{cell_count};
ghost use Rattle.metadata.specs.Metadata.{Metadata, cell_in};
ghost use Rattle.metadata.specs.Model.{IsModel};
ghost use Rattle.opening.specs.Views.{row_count};
ghost use Rattle.visible_rows.specs.Visible.{access_in, is_open_member, is_open_nested, is_public_type};

use opening::{TableId, View, number_or_zero};

/// The bits of the flags that say who can refer to the row.
const ACCESS: u32 = 7;

/// A type that is not nested (II.23.1.15).
const PUBLIC: u32 = 1;

/// Nested types (II.23.1.15).
const NESTED_PUBLIC: u32 = 2;

const NESTED_FAMILY: u32 = 4;

const NESTED_FAMILY_OR_ASSEMBLY: u32 = 7;

/// Fields and methods (II.23.1.5, II.23.1.10).
const FAMILY_MEMBER: u32 = 4;

const FAMILY_OR_ASSEMBLY_MEMBER: u32 = 5;

const PUBLIC_MEMBER: u32 = 6;

/// Who can refer to a row, by the cell of its flags.
pub(crate) fn access(view: &View<'_>, table: TableId, row: u32, cell: usize) -> u32
    requires first { 1 ≤ row }
    requires last { row ≤ row_count view.now table }
    requires cell { cell < cell_count table }
    ensures { (model : Metadata) → IsModel view.now model → result ≡ access_in (cell_in model table row cell) }
{
    number_or_zero(view, table, row, cell) & ACCESS
}

/// Whether a type that is not nested, or a resource, is public.
pub(crate) fn is_public(access: u32) -> bool
    ensures { result ≡ is_public_type access }
{
    access == PUBLIC
}

/// Whether a nested type is as visible as the type that encloses it.
fn is_open_nested(access: u32) -> bool
    ensures { result ≡ is_open_nested access }
{
    access == NESTED_PUBLIC || access == NESTED_FAMILY || access == NESTED_FAMILY_OR_ASSEMBLY
}

/// Whether a type is visible, by whether the type that encloses it is.
pub(crate) fn is_visible_by(access: u32, is_outer_visible: bool) -> bool
    ensures { result ≡ (is_public_type access || (is_open_nested access && is_outer_visible)) }
{
    is_public(access) || is_open_nested(access) && is_outer_visible
}

/// Whether a field or a method is as visible as its type.
pub(crate) fn is_open_member(access: u32) -> bool
    ensures { result ≡ is_open_member access }
{
    access == FAMILY_MEMBER || access == FAMILY_OR_ASSEMBLY_MEMBER || access == PUBLIC_MEMBER
}
