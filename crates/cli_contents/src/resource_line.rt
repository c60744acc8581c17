//! Prints the line of a resource.
ghost use Rattle.std.specs.Prelude.{◌≤◌, ◌∷◌, ℕ, List, []};
ghost use Rattle.cli_header.specs.declared.header.CliHeader.{CliHeader as Header};
ghost use Rattle.cli_lines.specs.Lines.{Part as ThePart};
ghost use Rattle.cli_lines.specs.Printed.{Prints};
ghost use Rattle.cli_contents.specs.Lines.{AreOfResources, resource_line};
ghost use Rattle.metadata.specs.Metadata.{Metadata};
ghost use Rattle.metadata.specs.Model.{IsModel, IsModelOfFile};
ghost use Rattle.opening.specs.Views.{row_count};
ghost use Rattle.file_ranges.specs.Resources.{IsDirectoryOf, IsLocation, here};
ghost use Rattle.table_schema.specs.declared.table.TableId.TheVariants.{ManifestResource};

use crate::lines::print_content;
use cli_header::read_cli;
use cli_lines::Printer;
use file_ranges::{Directory, Location, NotWithin, directory_of, location_of, resource_at};
use opening::{TableId, Token, View, text_or_empty};
use pe::read_pe;
use std::io::Write;

/// The index of the cell with the name of a resource (II.22.24).
const NAME: usize = 2;

/// Prints the line of the resource in a row, which is in the file.
#[tactic(auto, unfolding(table_schema::specs::CellColumns::cell_columns))]
fn print_located<W: Write>(
    directory: Option<Directory<'_>>,
    view: &View<'_>,
    row: u32,
    out: &mut Printer<'_, W>,
)
    requires first { 1 ≤ row }
    requires last { row ≤ row_count view.now ManifestResource }
    ensures { (file : List ℕ) (header : Header) (model : Metadata) → IsDirectoryOf file header directory.entry → IsModel view.now model
        → (offset : ℕ) (content : List ℕ) → IsLocation file header model row (here offset content)
        → Prints out.old out.new (resource_line model row offset content ∷ []) }
{
    match location_of(directory, view, row) {
        Ok(Location::Here(content)) => {
            let resource = Token {
                table: TableId::ManifestResource,
                row,
            };
            let name = text_or_empty(view, resource.table, resource.row, NAME);
            let size = content.bytes.len() as u64;
            print_content(content.offset, size, "resource", resource, name, out);
        }
        Ok(Location::Elsewhere(_)) => {}
        Err(NotWithin) => {}
    }
}

/// Prints a line for the first resource in a file whose content contains the byte at an offset of it: the file offset and the
/// size of the content, and the token and the name of the resource.
///
/// In JSON it is `{"offset":2364,"size":7,"structure":"resource","token":"28000001","name":"notes.txt"}`.
pub fn print_resource<W: Write>(file: &[u8], view: &View<'_>, offset: u64, out: &mut Printer<'_, W>)
    ensures { (header : Header) (model : Metadata) → IsModelOfFile file.now header model → IsModel view.now model
        → (lines : List (List ThePart)) × AreOfResources file.now header model offset lines × Prints out.old out.new lines }
{
    cli_lines::laws::lines_follow::<W>();
    let Ok(pe) = read_pe(file) else {
        return;
    };
    let Ok(header) = read_cli(&pe) else {
        return;
    };
    let directory = directory_of(file, &header);
    match resource_at(directory, view, offset) {
        Some(row) => print_located(directory, view, row, out),
        None => {}
    }
}
