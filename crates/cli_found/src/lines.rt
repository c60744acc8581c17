//! Prints the line of the offset of a fault.
ghost use Rattle.std.specs.Prelude.{◌≡◌, ◌∷◌, ◌+◌, ◌≤◌, [], IfSome, length, List, map, option_map, Some};
ghost use Rattle.cli_found.specs.Words.{little_endian, part, Adds, Begins, Prints, seen, seen_what};
ghost use Rattle.cli_lines.specs.Lines.{Part as ThePart};
ghost use Rattle.cli_found.specs.Found.{AreFound, IsFound, cell_of, field_size, last_of, lead_at, number_of_cell, offset_line, value_line};
ghost use Rattle.cli_found.specs.Kept.{IsFieldSize, lead_of, lead_text, shown_found, shown_limit};

use crate::limits::{Limit, coded_of, kind_of, limit_of, number_in, row_of, tag_of};
use cli_faults::FaultCode;
use cli_files::{Input, rows_of};
use cli_lines::Part::{Field, Member, Word};
use cli_lines::Value::Number;
use cli_lines::{Name, Printer};
use cli_regions::{Structure, What};
use packed::{u16_at, u32_at, u64_at};
use reading::Source;
use schema::TableCell;
use std::alloc::Global;
use std::fmt;
use std::io::Write;
use table_schema::Coded;

/// What the line of a number begins with. Its text is `0x78: value 17 (0x11)`, or `0x7a: value 5 (tag 1, row 2)` if the number is
/// a coded index.
#[derive(Clone, Copy)]
pub(crate) struct Lead {
    /// The offset of the number in the file.
    pub offset: u64,
    /// The number.
    pub number: u64,
    /// The kind of the coded index that it is, if it is one.
    pub coded: Option<Coded>,
}

impl fmt::Display for Lead {
    ghost output = { λ lead. Some (lead_text lead) };

    fn fmt<W: fmt::Write>(&self, f: &mut fmt::Formatter<W>) -> fmt::Result {
        let (offset, number) = (self.offset, self.number);
        match self.coded {
            Some(coded) => {
                let (tag, row) = (tag_of(coded, number), row_of(coded, number));
                write!(f, "0x{offset:01x}: value {number} (tag {tag}, row {row})")
            }
            None => write!(f, "0x{offset:01x}: value {number} (0x{number:01x})"),
        }
    }
}

/// Prints the line of an offset at which there is no number to print.
fn print_offset<W: Write>(alloc: Global, offset: u64, out: &mut Printer<'_, W>)
    ensures { Prints out.old out.new (offset_line offset ∷ []) }
{
    match format!(in alloc; "0x{offset:01x}") {
        Ok(text) => out.line(&[Member(Name::Offset, Number(offset)), Word(&text)]),
        Err(_) => out.fail(),
    }
}

/// Begins the line of a number.
pub(crate) fn begin_number<W: Write>(alloc: Global, lead: Lead, out: &mut Printer<'_, W>)
    ensures { Begins out.old out.new (value_line lead.offset lead.number lead.coded []) }
{
    cli_lines::laws::parts_follow::<W>();
    out.start();
    match lead.to_string(alloc) {
        Ok(text) => out.parts(&[
            Member(Name::Offset, Number(lead.offset)),
            Word(&text),
            Member(Name::Value, Number(lead.number)),
        ]),
        Err(_) => out.fail(),
    }
}

/// Adds what a number is compared with, if there is a limit.
fn add_limit<W: Write>(limit: Option<Limit<'_>>, out: &mut Printer<'_, W>)
    ensures { Adds out.old out.new (shown_limit limit.entry) }
{
    cli_lines::laws::parts_follow::<W>();
    if let Some(limit) = limit {
        out.parts(&[
            Word("; "),
            Word(limit.before),
            Field(limit.name, limit.of),
            Word(" has "),
            Field(Name::Limit, Number(limit.limit)),
            Word(limit.unit),
        ]);
    }
}

/// How many bytes at the offset of a fault are the number that its rule is about; `None` if the rule is about a cell, or about
/// more than one number.
fn field_size(rule: FaultCode) -> Option<usize>
    ensures size { result ≡ field_size rule }
    ensures known { IfSome result IsFieldSize }
{
    match rule {
        FaultCode::HeapSizes => Some(1),
        FaultCode::DosHeader
        | FaultCode::OptionalHeader
        | FaultCode::Pe32PlusSize
        | FaultCode::Magic
        | FaultCode::Sections
        | FaultCode::NoTables
        | FaultCode::TablesVersion => Some(2),
        FaultCode::PeSignature
        | FaultCode::Directories
        | FaultCode::NoCliHeader
        | FaultCode::CliAddress
        | FaultCode::CliSize
        | FaultCode::MetadataAddress
        | FaultCode::RootSignature
        | FaultCode::Version
        | FaultCode::RowCount
        | FaultCode::EntryPoint => Some(4),
        FaultCode::UnknownTable => Some(8),
        _ => None,
    }
}

/// The number in the bytes at an offset.
fn number_at(bytes: &[u8], offset: usize, size: usize) -> u64
    requires known { IsFieldSize size }
    requires within { offset + size ≤ length bytes.now }
    ensures { result ≡ little_endian (part bytes.now offset size) }
{
    match size {
        8 => u64_at(bytes, offset),
        4 => u64::from(u32_at(bytes, offset)),
        2 => u64::from(u16_at(bytes, offset)),
        _ => u64::from(bytes[offset]),
    }
}

/// The number of a size at an offset, if the bytes have it.
fn lead_at(bytes: &[u8], offset: u64, size: usize, coded: Option<Coded>) -> Option<Lead>
    requires { IsFieldSize size }
    ensures { result ≡ lead_at bytes.now offset size coded }
{
    if offset.saturating_add(size as u64) > bytes.len() as u64 {
        return None;
    }
    Some(Lead {
        offset,
        number: number_at(bytes, offset as usize, size),
        coded,
    })
}

/// The number that the bytes at an offset are; `None` if they are not one, two or four bytes, or the file ends before.
pub(crate) fn number_of(bytes: &[u8], offset: u64, size: u64, coded: Option<Coded>) -> Option<Lead>
    ensures { result ≡ lead_of bytes.now offset size coded }
{
    match size {
        1 | 2 | 4 => lead_at(bytes, offset, size as usize, coded),
        _ => None,
    }
}

/// The cell that a structure is, if it is one.
fn cell_of(what: What<'_>) -> Option<TableCell>
    ensures { result ≡ cell_of (seen_what what.entry) }
{
    match what {
        What::Cell(cell) => Some(cell),
        _ => None,
    }
}

/// The innermost of these structures.
pub(crate) fn last_of<'a>(structures: &[Structure<'a>]) -> Option<Structure<'a>>
    ensures { option_map seen result ≡ last_of (map seen structures.now) }
{
    structures.last().copied()
}

/// The number in a cell, and what a rule compares it with, if the tables have the cell.
fn number_of_cell(
    rule: FaultCode,
    source: &Source<'_>,
    cell: TableCell,
    offset: u64,
) -> Option<(Lead, Option<Limit<'static>>)>
    ensures { option_map shown_found result ≡ number_of_cell rule source.now.source cell offset }
{
    let number = number_in(source, cell)?;
    let lead = Lead {
        offset,
        number: u64::from(number),
        coded: coded_of(kind_of(cell)),
    };
    Some((lead, limit_of(rule, source, cell, number)))
}

/// The number at the offset of a fault, and what its rule compares it with; `None` if there is none.
fn number_at_fault(
    rule: FaultCode,
    bytes: &[u8],
    input: Input,
    offset: u64,
    structures: &[Structure<'_>],
) -> Option<(Lead, Option<Limit<'static>>)>
    ensures { IsFound (field_size rule) rule input bytes.now offset (map seen structures.now) (option_map shown_found result) }
{
    if let Some(size) = field_size(rule) {
        return Some((lead_at(bytes, offset, size, None)?, None));
    }
    let cell = cell_of(last_of(structures)?.what)?;
    let Ok(source) = rows_of(bytes, input) else {
        return None;
    };
    number_of_cell(rule, &source, cell, offset)
}

/// Prints the offset of a fault of this rule, the number there, and what the rule compares it with. `structures` are those
/// that contain the byte at the offset, the outermost first.
///
/// The line has the offset in hexadecimal, and the number in decimal and in hexadecimal, or with its tag and row if it is a
/// coded index. Then comes the size of what a cell refers to: the bytes of a heap, the GUIDs of `#GUID`, or the rows of a
/// table. For a rule about the order of rows (II.22) it is the number in the same column of the row before, or in column
/// NestedClass of the same row, or the number of rows without an owner. If the rule is about no number at the offset, as those for
/// stream headers, or if the bytes end before the number, the line has the offset alone.
///
/// In JSON it is `{"offset":1100,"value":4095,"stream":"#Blob","limit":208}`, with the member `table`, `row` or `column` in place
/// of `stream`.
///
/// It reads the headers and `#Strings` once more, and allocates the text of one line.
pub fn print_found<W: Write>(
    alloc: Global,
    rule: FaultCode,
    bytes: &[u8],
    input: Input,
    offset: u64,
    structures: &[Structure<'_>],
    out: &mut Printer<'_, W>,
)
    ensures { (lines : List (List ThePart)) × AreFound rule input bytes.now offset (map seen structures.now) lines × Prints out.old out.new lines }
{
    cli_lines::laws::parts_follow::<W>();
    match number_at_fault(rule, bytes, input, offset, structures) {
        Some((lead, limit)) => {
            begin_number(alloc, lead, out);
            add_limit(limit, out);
            out.end();
        }
        None => print_offset(alloc, offset, out),
    }
}
