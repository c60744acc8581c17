//! Prints the rows of some tables: all, or those that are chosen.
ghost use Rattle.std.specs.Prelude.{◌≡◌, ◌≤◌, ◌+◌, flat_map};
ghost use Rattle.cli_outline.specs.Words.{Metadata, IsModel, row_count, order_in};
ghost use Rattle.cli_outline.specs.Outline.{all_rows, each_from, has_accessors, own_rows};
ghost use Rattle.cli_outline.specs.Subjects.{PrintsChosen};

use crate::line::print_row;
use cli_declarations::Declared;
use cli_lines::Printer;
use cli_names::{Choice, Source};
use navigation::Link;
use opening::{TableId, Token};
use std::io::Write;
use std::ops::Range;

/// Whether the rows of a table have accessors.
fn has_accessors(table: TableId) -> bool
    ensures { result ≡ has_accessors table }
{
    matches!(table, TableId::Event | TableId::Property)
}

/// Prints the line of a row, and after that of an event or a property those of its accessors, of those that are chosen.
fn print_own<W: Write>(
    source: &Source<'_, '_>,
    choice: Choice<'_, '_>,
    token: Token,
    declared: &mut Declared,
    out: &mut Printer<'_, W>,
)
    requires first { 1 ≤ token.row }
    requires last { token.row ≤ row_count source.now.neighbours.view.now token.table }
    ensures { (model : Metadata) → IsModel source.now.neighbours.view.now model
        → PrintsChosen source.now.options model choice.entry out.old out.new (own_rows model token.table token.row) }
{
    print_row(source, choice, token, declared, out);
    if !has_accessors(token.table) {
        return;
    }
    // The table has at most 0xFFFFFF rows.
    let _count = source.neighbours.view.count(token.table);
    let number = Link::Accessors.number_to(token);
    let accessors = source.neighbours.linked(Link::Accessors, number);
    for accessor in accessors {
        let (table, row) = (TableId::MethodSemantics, accessor.row);
        print_row(source, choice, Token { table, row }, declared, out);
    }
}

/// Prints the lines of the rows at some positions of a table that are chosen, each with its accessors.
pub(crate) fn print_positions<W: Write>(
    source: &Source<'_, '_>,
    table: TableId,
    positions: Range<u32>,
    choice: Choice<'_, '_>,
    declared: &mut Declared,
    out: &mut Printer<'_, W>,
)
    requires first { 1 ≤ positions.start }
    requires last { positions.«end» ≤ row_count source.now.neighbours.view.now table + 1 }
    ensures { (model : Metadata) → IsModel source.now.neighbours.view.now model
        → PrintsChosen source.now.options model choice.entry out.old out.new (each_from (own_rows model table) (order_in source.now.orders.items table) positions.start positions.«end») }
{
    let (first, past) = (positions.start, positions.end);
    for position in first..past {
        let row = source.row_at(table, position);
        print_own(source, choice, Token { table, row }, declared, out);
    }
}

/// Prints the lines of the rows of some tables that are chosen.
pub(crate) fn print_chosen<W: Write>(
    source: &Source<'_, '_>,
    tables: &[TableId],
    choice: Choice<'_, '_>,
    declared: &mut Declared,
    out: &mut Printer<'_, W>,
)
    ensures { (model : Metadata) → IsModel source.now.neighbours.view.now model → PrintsChosen source.now.options model choice.entry out.old out.new (flat_map (all_rows (order_in source.now.orders.items) model) tables.now) }
{
    for table in tables {
        let past = source.neighbours.view.count(*table) + 1;
        print_positions(source, *table, 1..past, choice, declared, out);
    }
}
