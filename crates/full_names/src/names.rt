ghost use Rattle.std.specs.Prelude.{◌≡◌, ◌≤◌, ◌<◌, ℕ, IfNone, IfSome, OnOk};
ghost use Rattle.table_schema.specs.CellColumns.{cell_count};
ghost use Rattle.table_schema.specs.declared.column.ColumnKind.TheVariants as kind;
ghost use Rattle.table_schema.specs.declared.table.TableId.TheVariants.{TypeDef, TypeRef};
ghost use Rattle.metadata.specs.Metadata.{Metadata};
ghost use Rattle.metadata.specs.Valid.{kind_at};
ghost use Rattle.full_names.specs.Names.{IsOuter, IsOwnText, IsTypeDefText, IsTypeRefText, Wrote};

use crate::limit::{Limit, NoLimit};
use crate::parts::{write_left_out, write_slash};
use crate::quoted::write_type_name;
use navigation::{ReadCells, cells, enclosing_type, enclosing_type_ref};
use std::fmt;
use table_schema::TableId;

/// The number of types of one name that are written, from the innermost outwards.
pub const DEPTH: u8 = 64;

/// The cell of a type's name (II.22.37, II.22.38).
const NAME: usize = 1;

/// The cell of a type's namespace (II.22.37, II.22.38).
const NAMESPACE: usize = 2;

/// Writes the name of a type without those of the types that enclose it, unless the limit is reached.
fn write_own<S: ReadCells, W: fmt::Write, L: Limit<W>>(
    source: &S,
    table: TableId,
    row: u32,
    limit: &L,
    out: &mut W,
) -> fmt::Result
    requires first { 1 ≤ row }
    requires last { row ≤ S.row_count source.now table }
    requires cells { 2 < cell_count table }
    requires name { kind_at table 1 ≡ kind.Text }
    requires namespace { kind_at table 2 ≡ kind.Text }
    ensures { (model : Metadata) → S.shows source.now model
        → OnOk result (Wrote W.write_str_gives out.old (IsOwnText model table row) out.new) }
{
    source.holds_one();
    if limit.is_reached(out) {
        return Ok(());
    }
    let namespace = cells::text(source, table, row, NAMESPACE);
    let name = cells::text(source, table, row, NAME);
    write_type_name(out, namespace, name, limit)
}

/// The type that encloses a type of this module, by binary search; `None` if NestedClass is not in the order of its key
/// (II.22), because then each look-up would pass over the table.
fn outer_type<S: ReadCells>(source: &S, row: u32) -> Option<u32>
    ensures sound { (model : Metadata) → S.shows source.now model → IfSome result (IsOuter model row) }
    ensures none { (model : Metadata) → S.shows source.now model → IfNone result ((outer : ℕ) → ¬ IsOuter model row outer) }
    ensures first { IfSome result (λ outer. 1 ≤ outer) }
    ensures last { IfSome result (λ outer. outer ≤ S.row_count source.now TypeDef) }
{
    if !source.in_order(TableId::NestedClass) {
        return None;
    }
    enclosing_type(source, row)
}

/// Writes the name of a type of this module, after those of the types that enclose it, up to `depth` types. If NestedClass
/// is not in the order of its key (II.22), none encloses it.
pub fn write_type_def<S: ReadCells, W: fmt::Write>(
    source: &S,
    row: u32,
    out: &mut W,
    depth: u8,
) -> fmt::Result
    requires first { 1 ≤ row }
    requires last { row ≤ S.row_count source.now TypeDef }
    ensures { (model : Metadata) → S.shows source.now model
        → OnOk result (Wrote W.write_str_gives out.old (IsTypeDefText model depth row) out.new) }
{
    write_type_def_within(source, row, &NoLimit, out, depth)
}

/// Writes the name of a type as [`write_type_def`] does, up to a limit: when it is reached, the names of the types of the
/// chain are passed over.
#[tactic(auto, unfolding(table_schema::specs::CellColumns::cell_columns))]
pub fn write_type_def_within<S: ReadCells, W: fmt::Write, L: Limit<W>>(
    source: &S,
    row: u32,
    limit: &L,
    out: &mut W,
    depth: u8,
) -> fmt::Result
    requires first { 1 ≤ row }
    requires last { row ≤ S.row_count source.now TypeDef }
    ensures { (model : Metadata) → S.shows source.now model
        → OnOk result (Wrote W.write_str_gives out.old (IsTypeDefText model depth row) out.new) }
{
    if depth == 0 {
        return write_left_out(out);
    }
    let Some(outer) = outer_type(source, row) else {
        return write_own(source, TableId::TypeDef, row, limit, out);
    };
    write_type_def_within(source, outer, limit, out, depth - 1)?;
    write_slash(out)?;
    write_own(source, TableId::TypeDef, row, limit, out)
}

/// Writes the name of a type of another module, after those of the types that enclose it, up to `depth` types.
pub fn write_type_ref<S: ReadCells, W: fmt::Write>(
    source: &S,
    row: u32,
    out: &mut W,
    depth: u8,
) -> fmt::Result
    requires first { 1 ≤ row }
    requires last { row ≤ S.row_count source.now TypeRef }
    ensures { (model : Metadata) → S.shows source.now model
        → OnOk result (Wrote W.write_str_gives out.old (IsTypeRefText model depth row) out.new) }
{
    write_type_ref_within(source, row, &NoLimit, out, depth)
}

/// Writes the name of a type as [`write_type_ref`] does, up to a limit: when it is reached, the names of the types of the
/// chain are passed over.
#[tactic(auto, unfolding(table_schema::specs::CellColumns::cell_columns))]
pub fn write_type_ref_within<S: ReadCells, W: fmt::Write, L: Limit<W>>(
    source: &S,
    row: u32,
    limit: &L,
    out: &mut W,
    depth: u8,
) -> fmt::Result
    requires first { 1 ≤ row }
    requires last { row ≤ S.row_count source.now TypeRef }
    ensures { (model : Metadata) → S.shows source.now model
        → OnOk result (Wrote W.write_str_gives out.old (IsTypeRefText model depth row) out.new) }
{
    if depth == 0 {
        return write_left_out(out);
    }
    let Some(outer) = enclosing_type_ref(source, row) else {
        return write_own(source, TableId::TypeRef, row, limit, out);
    };
    write_type_ref_within(source, outer, limit, out, depth - 1)?;
    write_slash(out)?;
    write_own(source, TableId::TypeRef, row, limit, out)
}
