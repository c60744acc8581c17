//! Prints the lines of structures.
ghost use Rattle.std.specs.Prelude.{◌≡◌, ◌∷◌, ◌++◌, [], map};
ghost use Rattle.cli_where.specs.Words.{Prints, seen, name_text, is_padding, kind_of};
ghost use Rattle.cli_regions.specs.Regions.{cell as a_cell, words as some_words};
ghost use Rattle.cli_where.specs.Lines.{column_name, entry_word, line_with, structure_line, what_parts};

use cli_found::{column_number, kind_of};
use cli_lines::Part::{Field, Member, Note, Word};
use cli_lines::Value::{Byte, Hex, Number, Plain};
use cli_lines::{Name, Printer};
use cli_regions::{Name as RegionName, Structure, What};
use root::Kind;
use schema::{TableCell, column_names};
use std::alloc::Global;
use std::io::Write;
use table_schema::ColumnKind;

/// A line: the offset and the size of a structure, and parts that say what it is. After `=>` follow the table and the row of a cell,
/// and its column too if it is no padding.
macro_rules! line {
    ($of:expr; $($part:expr;)*) => {
        &[
            Field(Name::Offset, Number($of.start)), Word(" "),
            Field(Name::Size, Number($of.size)), Word(" "), $($part),*
        ]
    };
    ($of:expr; $($part:expr;)* => row $cell:ident; $($last:expr;)*) => {
        line![
            $of; $($part;)* Note(Byte($cell.table.number())); Word(" ");
            Field(Name::Table, Plain($cell.table.name())); Word(" row ");
            Field(Name::Row, Number($cell.row as u64)); $($last;)*
        ]
    };
    ($of:expr; $($part:expr;)* => cell $cell:ident;) => {
        line![
            $of; $($part;)* => row $cell; Word(" column ");
            Note(Number(column_number($cell) as u64)); Word(" ");
            Field(Name::Column, Plain(column_name($cell)));
        ]
    };
}

/// The name of the column of a cell (II.22).
fn column_name(cell: TableCell) -> &'static str
    ensures { result.now ≡ column_name cell }
{
    column_names(cell.table)
        .get(cell.column)
        .map_or("", |name| *name)
}

/// Whether a cell is the padding of its row (II.22.9).
fn is_padding(cell: TableCell) -> bool
    ensures { result ≡ is_padding (kind_of cell) }
{
    matches!(kind_of(cell), ColumnKind::Padding)
}

/// What an entry of a heap is.
fn entry_word(heap: Kind) -> &'static str
    ensures { result.now ≡ entry_word heap }
{
    match heap {
        Kind::Strings => "string",
        Kind::Guids => "guid",
        _ => "blob",
    }
}

/// Prints the line of a structure with these words.
fn print_words<W: Write>(
    alloc: Global,
    of: Structure<'_>,
    word: &'static str,
    name: RegionName<'_>,
    out: &mut Printer<'_, W>,
)
    ensures { Prints out.old out.new (line_with of.entry.start of.entry.size (what_parts (some_words (word.now ++ name_text name.entry))) ∷ []) }
{
    match format!(in alloc; "{word}{name}") {
        Ok(text) => out.line(line![of; Field(Name::Structure, Plain(&text));]),
        Err(_) => out.fail(),
    }
}

/// Prints the line of a cell, or of the padding of a row.
fn print_cell<W: Write>(of: Structure<'_>, cell: TableCell, out: &mut Printer<'_, W>)
    ensures { Prints out.old out.new (line_with of.entry.start of.entry.size (what_parts (a_cell cell)) ∷ []) }
{
    if is_padding(cell) {
        out.line(line![
            of; Member(Name::Structure, Plain("padding")); Word("table "); => row cell; Word(" padding");
        ]);
    } else {
        out.line(line![of; Member(Name::Structure, Plain("cell")); Word("table "); => cell cell;]);
    }
}

/// Prints the line of a structure.
fn print_structure<W: Write>(alloc: Global, of: Structure<'_>, out: &mut Printer<'_, W>)
    ensures { Prints out.old out.new (structure_line (seen of.entry) ∷ []) }
{
    match of.what {
        What::Words(word, name) | What::Scalar(word, name) => {
            print_words(alloc, of, word, name, out)
        }
        What::Cell(cell) => print_cell(of, cell, out),
        What::Entry(heap, cell) => out.line(line![
            of; Field(Name::Structure, Plain(entry_word(heap)));
            Member(Name::Stream, Plain(heap.name())); Word(" of table "); => cell cell;
        ]),
        What::UserString(token) => out.line(line![
            of; Field(Name::Structure, Plain("user string"));
            Member(Name::Stream, Plain(Kind::UserStrings.name())); Word(" ");
            Field(Name::Token, Hex(token));
        ]),
    }
}

/// Prints a line for each structure: its offset in the file and its size in bytes, both in decimal, and what it is.
///
/// In JSON it is `{"offset":672,"size":2,"structure":"cell","table":"TypeDef","row":2,"column":"TypeName"}`. The padding of
/// Constant has the structure `padding`, and no column (II.22.9). An entry has the
/// structure `string`, `guid` or `blob`, its `stream`, and the members of the cell that refers to it; a user string its
/// `stream` and its `token`. Any other structure is what its line of text says.
pub fn print_structures<W: Write>(alloc: Global, of: &[Structure<'_>], out: &mut Printer<'_, W>)
    ensures { Prints out.old out.new (map structure_line (map seen of.now)) }
{
    cli_lines::laws::reports_are_completed::<W>();
    for structure in of {
        print_structure(alloc, *structure, out);
    }
}
