//! Prints the number that a structure is, and what it means.
ghost use Rattle.std.specs.Prelude.{◌≡◌, ◌≤◌, ◌<◌, IsTrue, map};
ghost use Rattle.cli_found.specs.Words.{cell_count, Metadata, Adds, Prints, seen, seen_what};
ghost use Rattle.metadata.specs.Model.{IsModel};
ghost use Rattle.opening.specs.Views.{row_count};
ghost use Rattle.cli_found.specs.Found.{column_number};
ghost use Rattle.cli_found.specs.Values.{is_reference, lead_in, meaning_in, reference, refers, value_lines};

use crate::flags::{flags_at, print_flags};
use crate::limits::{coded_of, column_number, kind_of};
use crate::lines::{Lead, begin_number, last_of, number_of};
use cli_cells::{Names, print_cell};
use cli_lines::{Name, Printer};
use cli_regions::{Structure, What};
use opening::{CellCursor, Token, View};
use schema::TableCell;
use std::alloc::Global;
use std::io::Write;
use table_schema::{ColumnKind, cell_count};

/// Whether the number in a column of a kind stands for something else.
fn refers(kind: ColumnKind) -> bool
    ensures { result ≡ refers kind }
{
    !matches!(
        kind,
        ColumnKind::U8 | ColumnKind::U16 | ColumnKind::U32 | ColumnKind::Padding
    )
}

/// Whether the tables have a cell, and its number stands for something else.
fn is_reference(view: &View<'_>, cell: TableCell) -> bool
    ensures value { (model : Metadata) → IsModel view.now model → result ≡ is_reference model cell }
    ensures there { IsTrue result → (1 ≤ cell.row) × (cell.row ≤ row_count view.now cell.table) × (column_number cell < cell_count cell.table) }
{
    refers(kind_of(cell))
        && 1 <= cell.row
        && cell.row <= view.count(cell.table)
        && column_number(cell) < cell_count(cell.table)
}

/// Adds what a cell refers to, if its number stands for something else.
fn add_reference<W: Write>(alloc: Global, view: &View<'_>, at: TableCell, out: &mut Printer<'_, W>)
    ensures { (model : Metadata) → IsModel view.now model → Adds out.old out.new (reference model at) }
{
    cli_lines::laws::parts_follow::<W>();
    if !is_reference(view, at) {
        return;
    }
    let TableCell { table, row, .. } = at;
    let cell_index = column_number(at);
    let (name, row) = (Name::Cell(table, cell_index), Token { table, row });
    let mut cells = CellCursor::new(view);
    print_cell(alloc, Names::Hidden, name, &mut cells, row, cell_index, out);
}

/// Adds what the number that a structure is means, if it is a cell: the words of flags, or what it refers to.
fn print_meaning<W: Write>(
    alloc: Global,
    view: &View<'_>,
    what: What<'_>,
    number: u64,
    out: &mut Printer<'_, W>,
)
    ensures { (model : Metadata) → IsModel view.now model → Adds out.old out.new (meaning_in model (seen_what what.entry) number) }
{
    cli_lines::laws::parts_follow::<W>();
    if let What::Cell(cell) = what {
        match flags_at(cell.table, cell.column) {
            Some((_, _, of)) => {
                let named = Name::Cell(cell.table, column_number(cell));
                print_flags(alloc, named, of, number, out);
            }
            None => add_reference(alloc, view, cell, out),
        }
    }
}

/// The number that a structure is, if it is one; padding is none (II.22.9).
fn lead_in(bytes: &[u8], of: Structure<'_>) -> Option<Lead>
    ensures { result ≡ lead_in bytes.now (seen of.entry) (seen_what of.entry.what) }
{
    match of.what {
        What::Scalar(_, _) => number_of(bytes, of.start, of.size, None),
        What::Cell(cell) => match kind_of(cell) {
            ColumnKind::Padding => None,
            kind => number_of(bytes, of.start, of.size, coded_of(kind)),
        },
        _ => None,
    }
}

/// Prints the line of the number that the last structure is: the offset of its first byte in hexadecimal, and the number in
/// decimal and in hexadecimal, or with its tag and row if it is a coded index (II.24.2.6). The words of flags follow (II.23.1),
/// and if the number in a cell stands for something else, what `clim show` prints of it. A structure that is no cell and no
/// field of at most four bytes has no line.
///
/// In JSON it is `{"offset":674,"value":17,"TypeName":"A"}`.
pub fn print_value<W: Write>(
    alloc: Global,
    bytes: &[u8],
    view: &View<'_>,
    found: &[Structure<'_>],
    out: &mut Printer<'_, W>,
)
    ensures { (model : Metadata) → IsModel view.now model → Prints out.old out.new (value_lines model bytes.now (map seen found.now)) }
{
    cli_lines::laws::lines_follow::<W>();
    cli_lines::laws::parts_follow::<W>();
    let Some(of) = last_of(found) else { return };
    let Some(it) = lead_in(bytes, of) else { return };
    begin_number(alloc, it, out);
    print_meaning(alloc, view, of.what, it.number, out);
    out.end();
}
