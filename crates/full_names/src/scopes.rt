//! The scopes before the names of types of other modules (II.7.3, II.22.38).
ghost use Rattle.std.specs.Prelude.{◌≤◌, IfSome, OnOk};
ghost use Rattle.std.specs.Fmt.{WritesInCalls};
ghost use Rattle.table_schema.specs.declared.table.TableId.TheVariants.{TypeRef};
ghost use Rattle.metadata.specs.Metadata.{Metadata};
ghost use Rattle.full_names.specs.Names.{Wrote};
ghost use Rattle.full_names.specs.Scopes.{IsScopeIn, IsScopeWithin, IsTypeRefName, IsTypeScope, in_brackets};

use crate::limit::{Limit, Scopes};
use crate::names::{DEPTH, write_type_ref_within};
use crate::parts::write_text;
use crate::quoted::{NameKind, write_name};
use crate::row_names::{ASSEMBLY_NAME, MODULE_NAME};
use navigation::{ReadCells, cells, enclosing_type_ref};
use std::fmt;
use table_schema::{TableId, Token};

/// The cell of the scope of a TypeRef (II.22.38).
const SCOPE: usize = 0;

/// The scope of the outermost type that encloses a TypeRef, if that is one of `depth`.
#[tactic(auto, unfolding(table_schema::specs::CellColumns::cell_columns))]
fn scope_within<S: ReadCells>(source: &S, row: u32, depth: u8) -> Option<Token>
    requires first { 1 ≤ row }
    requires last { row ≤ S.row_count source.now TypeRef }
    ensures scope { (model : Metadata) → S.shows source.now model → IsScopeWithin model depth row result }
    ensures there { IfSome result (λ of. (1 ≤ of.row) × (of.row ≤ S.row_count source.now of.table)) }
{
    if depth == 0 {
        return None;
    }
    match enclosing_type_ref(source, row) {
        Some(outer) => scope_within(source, outer, depth - 1),
        None => cells::reference(source, TableId::TypeRef, row, SCOPE),
    }
}

/// Writes a name in brackets, after what says of what it is the name.
fn write_in_brackets<W: fmt::Write, L: Limit<W>>(
    out: &mut W,
    mark: &str,
    name: &str,
    limit: &L,
) -> fmt::Result
    ensures { OnOk result (WritesInCalls W.write_str_gives out.old (in_brackets mark.now name.now) out.new) }
{
    write_text(out, mark)?;
    write_name(out, NameKind::Dotted, name, limit)?;
    write_text(out, "]")
}

/// Writes a scope: an assembly or a module that is referred to. This module has none.
#[tactic(auto, unfolding(table_schema::specs::CellColumns::cell_columns))]
fn write_scope<S: ReadCells, W: fmt::Write, L: Limit<W>>(
    source: &S,
    scope: Token,
    limit: &L,
    out: &mut W,
) -> fmt::Result
    requires first { 1 ≤ scope.row }
    requires last { scope.row ≤ S.row_count source.now scope.table }
    ensures { (model : Metadata) → S.shows source.now model
        → OnOk result (Wrote W.write_str_gives out.old (IsScopeIn model scope.table scope.row) out.new) }
{
    match scope.table {
        TableId::AssemblyRef => {
            let name = cells::text(source, TableId::AssemblyRef, scope.row, ASSEMBLY_NAME);
            write_in_brackets(out, "[", name, limit)
        }
        TableId::ModuleRef => {
            let name = cells::text(source, TableId::ModuleRef, scope.row, MODULE_NAME);
            write_in_brackets(out, "[.module ", name, limit)
        }
        _ => Ok(()),
    }
}

/// Writes the scope of a type of another module, unless the limit is reached. One in a chain of more than [`DEPTH`] types
/// has none.
fn write_type_scope<S: ReadCells, W: fmt::Write, L: Limit<W>>(
    source: &S,
    row: u32,
    limit: &L,
    out: &mut W,
) -> fmt::Result
    requires first { 1 ≤ row }
    requires last { row ≤ S.row_count source.now TypeRef }
    ensures { (model : Metadata) → S.shows source.now model
        → OnOk result (Wrote W.write_str_gives out.old (IsTypeScope model row) out.new) }
{
    source.holds_one();
    if limit.is_reached(out) {
        return Ok(());
    }
    match scope_within(source, row, DEPTH) {
        Some(scope) => write_scope(source, scope, limit, out),
        None => Ok(()),
    }
}

/// Writes the name of a type of another module, after its scope if the limit says so.
pub(crate) fn write_type_ref_name<S: ReadCells, W: fmt::Write, L: Limit<W>>(
    source: &S,
    row: u32,
    limit: &L,
    out: &mut W,
) -> fmt::Result
    requires first { 1 ≤ row }
    requires last { row ≤ S.row_count source.now TypeRef }
    ensures { (model : Metadata) → S.shows source.now model
        → OnOk result (Wrote W.write_str_gives out.old (IsTypeRefName L.scopes model row) out.new) }
{
    match limit.scopes_of_names() {
        Scopes::Omitted => write_type_ref_within(source, row, limit, out, DEPTH),
        Scopes::Written => {
            write_type_scope(source, row, limit, out)?;
            write_type_ref_within(source, row, limit, out, DEPTH)
        }
    }
}
