//! The generic parameters of a method that is declared (II.15.1), or their number.
ghost use Rattle.std.specs.Prelude.{map, OnOk};
ghost use Rattle.std.specs.Fmt.{WritesInCalls};
ghost use Rattle.metadata.specs.Metadata.{Metadata};
ghost use Rattle.metadata.specs.Model.{IsModel};
ghost use Rattle.navigation.specs.Keyed.{row_of};
ghost use Rattle.full_names.specs.Names.{Wrote};
ghost use Rattle.declarations.specs.Declarations.{AreLinksOf, IsGenerics, arity_text, generic_rows};

use crate::links::Links;
use full_names::{Limit, TextError, write_text};
use navigation::Link;
use std::alloc::Global;
use std::fmt;
use type_heads::write_items;

/// Writes the number of generic parameters.
fn write_arity<W: fmt::Write>(out: &mut W, count: u32) -> fmt::Result
    ensures { OnOk result (WritesInCalls W.write_str_gives out.old (arity_text count) out.new) }
{
    write!(out, "<[{count}]>")
}

/// Writes the generic parameters in the rows that refer to a method, or their number if there are none.
fn write_linked<W: fmt::Write, L: Limit<W>>(
    alloc: Global,
    links: Links<'_>,
    count: u32,
    limit: &L,
    out: &mut W,
) -> Result<(), TextError>
    ensures { (model : Metadata) → IsModel links.entry.neighbours.now.view.now model
        → OnOk result (Wrote W.write_str_gives out.old (IsGenerics L.scopes model (map row_of links.entry.generics.now) count) out.new) }
{
    if links.generics.is_empty() {
        return Ok(write_arity(out, count)?);
    }
    write_text(out, "<")?;
    write_items(
        alloc,
        links.neighbours,
        Link::GenericParams,
        links.generics,
        limit,
        out,
    )?;
    Ok(write_text(out, ">")?)
}

/// Writes the generic parameters of a method, or their number if no rows are known.
pub fn write_generics<W: fmt::Write, L: Limit<W>>(
    alloc: Global,
    links: Option<Links<'_>>,
    count: u32,
    limit: &L,
    out: &mut W,
) -> Result<(), TextError>
    ensures { (model : Metadata) → AreLinksOf model links.entry
        → OnOk result (Wrote W.write_str_gives out.old (IsGenerics L.scopes model (generic_rows links.entry) count) out.new) }
{
    match links {
        Some(links) => write_linked(alloc, links, count, limit, out),
        None => Ok(write_arity(out, count)?),
    }
}
