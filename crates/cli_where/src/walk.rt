//! Walks over a file, entire or broken, down to a byte.
ghost use Rattle.std.specs.Prelude.{◌≤◌, IfOk, length, map};
ghost use Rattle.cli_where.specs.Words.{Finds, seen, Tables, tables_end};
ghost use Rattle.cli_where.specs.Entries.{heap_at};
ghost use Rattle.cli_where.specs.Where.{AreCellsAt, AreInHeaps, AreInImage, AreInRoot, AreInStream, AreStructuresAt};

use crate::entries::{Target, find_entries, heap_in, run_of};
use crate::user_strings::find_user_strings;
use cli_files::{Input, root_of};
use cli_header::read_cli;
use cli_regions::{Search, Structure, What, find_cli, find_pe, find_root, find_table_stream};
use pe::{Pe, read_pe};
use root::{Kind, Root, read_root};
use rows::Rows;
use schema::{Layout, cell_at};
use std::alloc::{AllocError, Global};

/// How far a walk goes.
#[derive(Clone, Copy, PartialEq, Eq)]
pub enum Reach {
    /// Down to the cells.
    Cells,
    /// Down to the entries of the heaps.
    Entries,
}

/// Keeps the cell that contains the byte, if there is one. The table stream is at offset `start` of the file.
pub(crate) fn find_cell(layout: &Layout, start: u64, found: &mut Search<'_>)
    requires start { start ≤ 0x80000000 }
    requires small { tables_end layout.now ≤ 0x40000000 }
    ensures { Finds (AreCellsAt layout.now start) found.old found.new }
{
    let offset = found.offset();
    if offset < start {
        return;
    }
    if let Some(cell) = cell_at(layout, (offset - start) as usize) {
        let start = start + layout.cell_start(cell.table, cell.row, cell.column) as u64;
        let size = layout.cell_width(cell.table, cell.column) as u64;
        let what = What::Cell(cell);
        found.keep(Structure { start, size, what });
    }
}

/// Keeps the entries of the heaps of a root, if the walk goes so far. The root is at offset `start` of the file.
fn find_in_heaps(root: &Root<'_>, rows: &Rows<'_>, start: u64, reach: Reach, found: &mut Search<'_>)
    requires small { length root.now.bytes ≤ 0x40000000 }
    requires start { start ≤ 0x40000000 }
    ensures { Finds (AreInHeaps reach start root.now rows.now) found.old found.new }
{
    match reach {
        Reach::Cells => {}
        Reach::Entries => {
            let offset = found.offset();
            let texts = heap_in(root, Kind::Strings, start);
            let target = Target {
                offset,
                texts,
                run: run_of(texts, offset),
                guids: heap_in(root, Kind::Guids, start),
                blobs: heap_in(root, Kind::Blobs, start),
            };
            find_entries(rows, &target, found);
            let users = heap_in(root, Kind::UserStrings, start);
            find_user_strings(found.alloc(), &users, found);
        }
    }
}

/// Walks over the tables and heaps of a root, unless the table stream breaks a rule. The root is at offset `start` of the
/// file.
fn find_in_streams(root: &Root<'_>, start: u64, reach: Reach, found: &mut Search<'_>)
    requires small { length root.now.bytes ≤ 0x40000000 }
    requires start { start ≤ 0x40000000 }
    ensures { Finds (AreInStream reach start root.now (heap_at start root.now Tables)) found.old found.new }
{
    schema::laws::streams_are_read();
    schema::laws::tables_end_within();
    let tables = heap_in(root, Kind::Tables, start);
    let Ok(layout) = Layout::read(tables.bytes) else {
        return;
    };
    find_table_stream(tables.bytes, tables.start, found);
    find_cell(&layout, tables.start, found);
    find_in_heaps(root, &Rows::new(tables.bytes, layout), start, reach, found);
}

/// Walks over a metadata root, unless its headers break a rule. It is at offset `start` of the file.
fn find_in_root<'a>(bytes: &'a [u8], start: u64, reach: Reach, found: &mut Search<'a>)
    requires { start ≤ 0x40000000 }
    ensures { Finds (AreInRoot reach start bytes.now) found.old found.new }
{
    let Ok(root) = read_root(bytes) else { return };
    find_root(bytes, &root, start, found);
    find_in_streams(&root, start, reach, found);
}

/// Walks over the CLI header of an image and what it refers to, unless it breaks a rule.
fn find_in_image<'a>(pe: &Pe<'a>, reach: Reach, found: &mut Search<'a>)
    requires { length pe.now.bytes ≤ 0x40000000 }
    ensures { Finds (AreInImage reach pe.now) found.old found.new }
{
    let Ok(header) = read_cli(pe) else { return };
    find_cli(pe, &header, found);
    let root = root_of(pe.bytes(), &header);
    find_in_root(root, header.root.start as u64, reach, found);
}

/// Walks over the bytes: over a file unless its PE headers break a rule, or over a root.
fn find_all<'a>(bytes: &'a [u8], input: Input, reach: Reach, found: &mut Search<'a>)
    ensures { Finds (AreStructuresAt input reach bytes.now) found.old found.new }
{
    match input {
        Input::BareRoot => find_in_root(bytes, 0, reach, found),
        Input::File => {
            let Ok(pe) = read_pe(bytes) else { return };
            find_pe(&pe, found);
            find_in_image(&pe, reach, found);
        }
    }
}

/// The structures that contain the byte at an offset, the outermost first. The offset counts from the first byte.
///
/// Only the layers that break no rule are taken apart: the PE headers, then the CLI header, the metadata root, and its table
/// stream with the cells. So a broken file has the structures around its first fault. The heaps are walked over if `reach`
/// says so. The time is linear in the number of bytes. The memory is that of the structures: at most one for each section
/// and each stream, and fewer than fifty others; and that of a copy of `#US` if its size is no multiple of four.
///
/// # Errors
///
/// Only if out of memory.
pub fn structures_at<'a>(
    alloc: Global,
    bytes: &'a [u8],
    input: Input,
    reach: Reach,
    offset: u64,
) -> Result<Vec<Structure<'a>>, AllocError>
    ensures { IfOk result (λ found. AreStructuresAt input reach bytes.now offset (map seen found.items)) }
{
    let mut found = Search::new(alloc, offset);
    find_all(bytes, input, reach, &mut found);
    found.finish()
}
