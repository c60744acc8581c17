//! Prints what a byte of a file belongs to.
ghost use Rattle.std.specs.Prelude.{◌≡◌, ◌==◌, ◌++◌, false, length, map};
ghost use Rattle.cli_where.specs.Words.{Prints, seen, IsModelOf, Metadata, IsModel};
ghost use Rattle.cli_where.specs.Located.{HasContents, IsLocated, where_lines};

use crate::structure_lines::print_structures;
use crate::walk::{Reach, structures_at};
use cli_contents::{print_contents, print_resource};
use cli_faults::Failure;
use cli_files::{Input, open};
use cli_found::print_value;
use cli_lines::Part::Word;
use cli_lines::Printer;
use cli_regions::Structure;
use opening::View;
use std::alloc::Global;
use std::io::Write;

/// Whether some structure contains the byte.
#[derive(Clone, Copy, PartialEq, Eq)]
pub enum Found {
    /// A structure contains it. Its line was printed.
    Something,
    /// No structure contains it. `nothing` was printed, or no line of JSON.
    Nothing,
}

/// Prints what the byte at an offset belongs to. The offset counts from the first byte.
///
/// Each structure that contains the byte gets a line, the outermost first, as [`print_structures`] prints it. Lines are
/// those of
///
/// - the MS-DOS header, the PE signature, the PE file header, the optional header, a data directory or a section header, and
///   its field (II.25.2, II.25.3);
/// - each section that has the byte in the file: its number from 1 and its name (II.25.3);
/// - the CLI header and its field, and what it refers to except the metadata root (II.25.3.3);
/// - the metadata root and its field, or a stream header and its field (II.24.2.1, II.24.2.2);
/// - the streams, which may overlap. One with a name that is not of the standard has its bytes that are within the root;
/// - the field or row count of the table stream (II.24.2.6), or the cell: its table, its row from 1, and its column from
///   0 and by name (II.22), which the padding of Constant has not;
/// - the entries of `#Strings`, `#GUID` and `#Blob` that contain the byte, each with the cell that refers to it, for the
///   first ten cells that refer to one. The NUL of a string and the packed length of a blob count (II.24.2.3 to II.24.2.5);
/// - the user string that contains the byte, with its token, if `clim strings` walks over it (II.24.2.4, III.1.9). A string
///   that ends in the zeros with which `#US` is padded has only the bytes before them;
/// - the number that the last of these structures is, if it is a cell or a field of at most four bytes: in decimal and in
///   hexadecimal, or with its tag and row, and the words of flags (II.23.1), or what `clim show` prints of the cell if its
///   number stands for something else;
/// - the first ten methods of a file whose bodies contain the byte (II.25.4), of a file with at most 96 sections;
/// - the first ten fields of such a file whose data contains the byte (II.22.18);
/// - the first resource of a file whose content contains the byte (II.22.24).
///
/// If no structure contains the byte, or the offset is not before the end, it prints `nothing`, or no line of JSON. Of bytes
/// that break a rule it prints the lines of the layers that break none, down to the cells. After opening it takes one pass
/// over the sections, one over `#US`, one over the cells, one over the methods and one over the resources. It copies `#US` if its
/// size is no multiple of four.
///
/// # Errors
///
/// The fault of the first rule that fails; or memory ran out before a line was printed.
pub fn print_where<W: Write>(
    alloc: Global,
    bytes: &[u8],
    input: Input,
    offset: u64,
    out: &mut Printer<'_, W>,
) -> Result<Found, Failure<'static>>
    ensures { IsLocated input bytes.now offset out.old out.new result }
{
    match open(bytes, input) {
        Ok(view) => match structures_at(alloc, bytes, input, Reach::Entries, offset) {
            Ok(structures) => {
                if structures.is_empty() {
                    out.line(&[Word("nothing")]);
                    return Ok(Found::Nothing);
                }
                print_found(alloc, bytes, input, &view, offset, &structures, out);
                Ok(Found::Something)
            }
            Err(_) => Err(Failure::OutOfMemory),
        },
        Err(fault) => match structures_at(alloc, bytes, input, Reach::Cells, offset) {
            Ok(found) => {
                print_structures(alloc, &found, out);
                Err(Failure::Fault(fault))
            }
            Err(_) => Err(Failure::OutOfMemory),
        },
    }
}

/// Prints the lines of structures, the number that the last of them is, and the methods, the field data and the resource of a
/// file that contain the byte at an offset. A bare root has no contents.
fn print_found<W: Write>(
    alloc: Global,
    bytes: &[u8],
    input: Input,
    view: &View<'_>,
    offset: u64,
    structures: &[Structure<'_>],
    out: &mut Printer<'_, W>,
)
    requires model { (model : Metadata) → IsModelOf input bytes.now model → IsModel view.now model }
    requires some { (length structures.now == 0) ≡ false }
    ensures { HasContents (map seen structures.now) input bytes.now offset (λ contents. Prints out.old out.new (where_lines (map seen structures.now) ++ contents)) }
{
    cli_lines::laws::lines_follow::<W>();
    print_structures(alloc, structures, out);
    print_value(alloc, bytes, view, structures, out);
    if let Input::File = input {
        print_contents(alloc, bytes, view, offset, out);
        print_resource(bytes, view, offset, out);
    }
}
