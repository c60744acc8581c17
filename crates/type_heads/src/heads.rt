ghost use Rattle.std.specs.Prelude.{◌≡◌, ◌≤◌, ◌<◌, [], All, map, OnOk};
ghost use Rattle.table_schema.specs.CellColumns.{cell_count};
ghost use Rattle.table_schema.specs.declared.table.TableId.TheVariants.{GenericParam};
ghost use Rattle.metadata.specs.Cell.{reference_in};
ghost use Rattle.metadata.specs.Metadata.{Metadata, cell_in};
ghost use Rattle.metadata.specs.Model.{IsModel};
ghost use Rattle.full_names.specs.Names.{Wrote};
ghost use Rattle.navigation.specs.declared.links.Link.TheVariants as link_of;
ghost use Rattle.navigation.specs.Keyed.{row_of};
ghost use Rattle.navigation.specs.Linked.{table_of};
ghost use Rattle.opening.specs.Views.{row_count};
ghost use Rattle.type_heads.specs.Heads.{AreConstraints, AreListed, IsGenericParam, IsInHead, IsTypeOf};

use crate::flag_words::{FlagTable, write_flags};
use full_names::{Limit, NameKind, TextError, write_full_name_within, write_name, write_text};
use navigation::{KeyedRow, Link, Neighbours};
use opening::{TableId, Token, number_or_zero, reference_or_null, text_or_empty};
use std::alloc::Global;
use std::fmt;

/// The cell of the type in a row of InterfaceImpl (II.22.23) or GenericParamConstraint (II.22.21).
const TYPE: usize = 1;

/// The cell of the flags of a generic parameter (II.22.20).
const FLAGS: usize = 1;

/// The cell of the name of a generic parameter (II.22.20).
const NAME: usize = 3;

/// What is between two texts of a list.
const COMMA: &str = ", ";

/// The reference in the second cell of a row, otherwise null.
fn reference(source: &Neighbours<'_, '_>, link: Link, row: u32) -> Option<Token>
    requires first { 1 ≤ row }
    requires last { row ≤ row_count source.now.view.now (table_of link) }
    ensures { (model : Metadata) → IsModel source.now.view.now model → result ≡ reference_in (cell_in model (table_of link) row 1) }
{
    reference_or_null(source.view, link.table(), row, TYPE)
}

/// Writes the full name of the type that a row refers to.
fn write_type<W: fmt::Write, L: Limit<W>>(
    alloc: Global,
    source: &Neighbours<'_, '_>,
    link: Link,
    row: u32,
    limit: &L,
    out: &mut W,
) -> Result<(), TextError>
    requires first { 1 ≤ row }
    requires last { row ≤ row_count source.now.view.now (table_of link) }
    ensures { (model : Metadata) → IsModel source.now.view.now model
        → OnOk result (Wrote W.write_str_gives out.old (IsTypeOf L.scopes model link row) out.new) }
{
    match reference(source, link, row) {
        Some(token) => write_full_name_within(alloc, source, token, limit, out),
        None => Ok(()),
    }
}

/// Writes the full names of the types that rows refer to, until the limit is reached.
fn write_types<W: fmt::Write, L: Limit<W>>(
    alloc: Global,
    source: &Neighbours<'_, '_>,
    link: Link,
    rows: &[KeyedRow],
    limit: &L,
    out: &mut W,
) -> Result<(), TextError>
    requires { All (λ found. (1 ≤ found.row) × (found.row ≤ row_count source.now.view.now (table_of link))) rows.now }
    ensures { (model : Metadata) → IsModel source.now.view.now model
        → OnOk result (Wrote W.write_str_gives out.old (AreListed (IsTypeOf L.scopes model link) [] (map row_of rows.now)) out.new) }
{
    metadata::laws::models_of_roots_are_valid();
    let mut before = "";
    for found in rows {
        if limit.is_reached(out) {
            return Ok(());
        }
        write_text(out, before)?;
        write_type(alloc, source, link, found.row, limit, out)?;
        before = COMMA;
    }
    Ok(())
}

/// Writes the constraints of a generic parameter in parentheses, and a space; nothing if it has none.
fn write_constraints<W: fmt::Write, L: Limit<W>>(
    alloc: Global,
    source: &Neighbours<'_, '_>,
    rows: &[KeyedRow],
    limit: &L,
    out: &mut W,
) -> Result<(), TextError>
    requires { All (λ found. (1 ≤ found.row) × (found.row ≤ row_count source.now.view.now (table_of link_of.Constraints))) rows.now }
    ensures { (model : Metadata) → IsModel source.now.view.now model
        → OnOk result (Wrote W.write_str_gives out.old (AreConstraints L.scopes model (map row_of rows.now)) out.new) }
{
    if rows.is_empty() {
        return Ok(());
    }
    write_text(out, "(")?;
    write_types(alloc, source, Link::Constraints, rows, limit, out)?;
    Ok(write_text(out, ") ")?)
}

/// Writes a generic parameter: the words of its flags, its constraints, and its name.
#[tactic(auto, unfolding(table_schema::specs::CellColumns::cell_columns))]
fn write_param<W: fmt::Write, L: Limit<W>>(
    alloc: Global,
    source: &Neighbours<'_, '_>,
    row: u32,
    limit: &L,
    out: &mut W,
) -> Result<(), TextError>
    requires first { 1 ≤ row }
    requires last { row ≤ row_count source.now.view.now GenericParam }
    ensures { (model : Metadata) → IsModel source.now.view.now model
        → OnOk result (Wrote W.write_str_gives out.old (IsGenericParam L.scopes model row) out.new) }
{
    let table = TableId::GenericParam;
    // The table has at most 0xFFFFFF rows.
    let _count = source.view.count(table);
    let number_of_row = Link::Constraints.number_to(Token { table, row });
    let constraints = source.linked(Link::Constraints, number_of_row);
    let flags = number_or_zero(source.view, table, row, FLAGS);
    write_flags(out, FlagTable::Generic, flags)?;
    write_constraints(alloc, source, constraints, limit, out)?;
    let name = text_or_empty(source.view, table, row, NAME);
    Ok(write_name(out, NameKind::Identifier, name, limit)?)
}

/// Writes generic parameters, until the limit is reached.
fn write_params<W: fmt::Write, L: Limit<W>>(
    alloc: Global,
    source: &Neighbours<'_, '_>,
    rows: &[KeyedRow],
    limit: &L,
    out: &mut W,
) -> Result<(), TextError>
    requires { All (λ found. (1 ≤ found.row) × (found.row ≤ row_count source.now.view.now GenericParam)) rows.now }
    ensures { (model : Metadata) → IsModel source.now.view.now model
        → OnOk result (Wrote W.write_str_gives out.old (AreListed (IsGenericParam L.scopes model) [] (map row_of rows.now)) out.new) }
{
    metadata::laws::models_of_roots_are_valid();
    let mut before = "";
    for found in rows {
        if limit.is_reached(out) {
            return Ok(());
        }
        write_text(out, before)?;
        write_param(alloc, source, found.row, limit, out)?;
        before = COMMA;
    }
    Ok(())
}

/// Writes what rows are in the head of the row that they refer to, with commas between them: generic parameters with the words
/// of their flags and their constraints (II.22.20), or the types that rows of InterfaceImpl or GenericParamConstraint refer to
/// (II.22.21, II.22.23). When the limit is reached, the other rows are passed over.
///
/// # Errors
///
/// `Writer` if the writer refused a part of the text. `Memory` if out of memory.
pub fn write_items<W: fmt::Write, L: Limit<W>>(
    alloc: Global,
    source: &Neighbours<'_, '_>,
    link: Link,
    rows: &[KeyedRow],
    limit: &L,
    out: &mut W,
) -> Result<(), TextError>
    requires { All (λ found. (1 ≤ found.row) × (found.row ≤ row_count source.now.view.now (table_of link))) rows.now }
    ensures { (model : Metadata) → IsModel source.now.view.now model
        → OnOk result (Wrote W.write_str_gives out.old (AreListed (IsInHead L.scopes model link) [] (map row_of rows.now)) out.new) }
{
    match link {
        Link::GenericParams => write_params(alloc, source, rows, limit, out),
        _ => write_types(alloc, source, link, rows, limit, out),
    }
}
