//! The lines of rows and of tables.
ghost use Rattle.std.specs.Prelude.{◌≡◌, ◌≤◌, ◌∷◌, [], flat_map};
ghost use Rattle.cli_cells.specs.Words.{Adds, Begins, Prints, Metadata, IsModel};
ghost use Rattle.cli_cells.specs.RowLines.{cell_label, row_head, row_line, first_lines, show_lines};
ghost use Rattle.cli_cells.specs.Shown.{Content};

use crate::cells::print_cell;
use crate::shown_rows::ShownRows;
use cli_lines::Part::{Note, RowNumber, RowToken, Word};
use cli_lines::Value::{Byte, Number};
use cli_lines::{Name, Printer, cell_label};
use opening::{CellCursor, TableId, Token, View};
use std::alloc::Global;
use std::io::Write;
use table_schema::cell_count;

/// Whether columns are named in the line of a row. In JSON they always are.
#[derive(Clone, Copy, PartialEq, Eq)]
pub enum Names {
    /// The line begins with the number of the row and a colon, and a cell is its value alone.
    Hidden,
    /// The line begins with the token of the row, and a cell with the name of its column and an equals sign.
    Shown,
}

/// Prints the line of a row: its number and a colon, or its token if columns are named, and its cells.
pub(crate) fn print_row<'a, R: ShownRows<'a>, W: Write>(
    alloc: Global,
    names: Names,
    rows: &mut R,
    row: Token,
    out: &mut Printer<'_, W>,
)
    requires first { 1 ≤ row.row }
    requires last { row.row ≤ R.ready_rows rows.old row.table }
    ensures same { rows.new ≡ rows.old }
    ensures line { (content : Content) → R.shows rows.old content → Prints out.old out.new (row_line names content row.table row.row ∷ []) }
{
    cli_lines::laws::parts_follow::<W>();
    begin_row(names, row, out);
    for cell_index in 0..cell_count(row.table) {
        print_label(names, row.table, cell_index, out);
        let name = Name::Cell(row.table, cell_index);
        print_cell(alloc, names, name, rows, row, cell_index, out);
    }
    out.end();
}

/// Begins the line of a row.
#[inline(always)]
fn begin_row<W: Write>(names: Names, row: Token, out: &mut Printer<'_, W>)
    ensures { Begins out.old out.new (row_head names row ∷ []) }
{
    cli_lines::laws::parts_follow::<W>();
    out.start();
    match names {
        Names::Hidden => out.part(&RowNumber(row)),
        Names::Shown => out.part(&RowToken(row)),
    }
}

/// Adds what a cell begins with, if columns are named: a space, the name of its column and an equals sign.
#[tactic(auto, unfolding(crate::specs::RowLines::cell_label))]
#[inline(always)]
fn print_label<W: Write>(names: Names, table: TableId, cell_index: usize, out: &mut Printer<'_, W>)
    ensures { Adds out.old out.new (cell_label names table cell_index) }
{
    cli_lines::laws::parts_follow::<W>();
    match names {
        Names::Hidden => {}
        Names::Shown => out.part(&Word(cell_label(table, cell_index))),
    }
}

/// Prints each of these tables that has rows, one after another: the line `table NN NAME COUNT`, where NN is the table's
/// number in two upper-case hexadecimal digits (II.22), and then the line of each row. JSON has the rows alone.
///
/// - A number is decimal.
/// - A text is in quotes. Printable ASCII except `"` and `\` is as it is, any other byte is `\x` and two hexadecimal
///   digits.
/// - Bytes are in hexadecimal between `<` and `>`, and so is a signature, in its canonical encoding (II.23.2).
/// - A GUID is in braces, a reference is the eight hexadecimal digits of its token, and a start is `+` and a row.
/// - `null` means no GUID or no row.
pub fn print_show<W: Write>(
    alloc: Global,
    view: &View<'_>,
    tables: &[TableId],
    names: Names,
    out: &mut Printer<'_, W>,
)
    ensures { (model : Metadata) → IsModel view.now model → Prints out.old out.new (show_lines names model tables.now) }
{
    metadata::laws::models_are_read();
    let mut cells = CellCursor::new(view);
    print_tables(alloc, names, &mut cells, tables, out);
}

/// Prints the rows of these tables that can be printed.
pub(crate) fn print_tables<'a, R: ShownRows<'a>, W: Write>(
    alloc: Global,
    names: Names,
    rows: &mut R,
    tables: &[TableId],
    out: &mut Printer<'_, W>,
)
    ensures { (content : Content) → R.shows rows.old content
        → Prints out.old out.new (flat_map (λ table. first_lines names content table (R.ready_rows rows.old table)) tables.now) }
{
    cli_lines::laws::lines_follow::<W>();
    for table in tables {
        print_table(alloc, names, rows, *table, out);
    }
}

/// Prints the rows of a table that can be printed, after its heading; nothing if there are none.
fn print_table<'a, R: ShownRows<'a>, W: Write>(
    alloc: Global,
    names: Names,
    rows: &mut R,
    table: TableId,
    out: &mut Printer<'_, W>,
)
    ensures same { rows.new ≡ rows.old }
    ensures lines { (content : Content) → R.shows rows.old content
        → Prints out.old out.new (first_lines names content table (R.ready_rows rows.old table)) }
{
    cli_lines::laws::lines_follow::<W>();
    let ready = rows.ready(table);
    if ready == 0 {
        return;
    }
    out.line(&[
        Word("table "),
        Note(Byte(table.number())),
        Word(" "),
        Word(table.name()),
        Word(" "),
        Note(Number(rows.count(table) as u64)),
    ]);
    for earlier in 0..ready {
        let row = earlier + 1;
        print_row(alloc, names, rows, Token { table, row }, out);
    }
}
