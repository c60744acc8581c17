//! Resources by their names, and by the bytes of the file that they contain (II.22.24).
ghost use Rattle.std.specs.Prelude.{◌≡◌, ◌≤◌, ℕ, IfNone, IfSome, ◌<◌, ◌+◌, ◌↔◌, List, IsTrue, length};
ghost use Rattle.cli_header.specs.declared.header.CliHeader.{CliHeader as Header};
ghost use Rattle.table_schema.specs.declared.table.TableId.TheVariants.{ManifestResource};
ghost use Rattle.metadata.specs.Lookups.{HasRow};
ghost use Rattle.metadata.specs.Metadata.{Metadata};
ghost use Rattle.metadata.specs.Model.{IsModel};
ghost use Rattle.opening.specs.Views.{row_count};
ghost use Rattle.file_ranges.specs.Resources.{HasName, IsFirstNamed, HasByte, IsDirectoryOf, IsFirstWithByte};

use crate::directory::{Content, Directory};
use crate::location::{Location, NotWithin, location_of};
use metadata_source::ReadMetadata;
use opening::{TableId, View};

/// The index of the cell with the name of a resource (II.22.24).
const NAME: usize = 2;

/// The first resource with a name, by its row; `None` if no resource has it.
///
/// The names of the resources before it are compared, up to the first byte that differs.
#[tactic(auto, unfolding(table_schema::specs::CellColumns::cell_columns))]
pub fn find_resource(view: &View<'_>, name: &str) -> Option<u32>
    ensures sound { (model : Metadata) → IsModel view.now model → IfSome result (IsFirstNamed model name.now) }
    ensures none { (model : Metadata) → IsModel view.now model
        → IfNone result ((row : ℕ) → HasRow model ManifestResource row → ¬ HasName model name.now row) }
    ensures first { IfSome result (λ row. 1 ≤ row) }
    ensures last { IfSome result (λ row. row ≤ row_count view.now ManifestResource) }
{
    view.holds_one();
    for row in 1..view.count(TableId::ManifestResource) + 1 {
        if view.is_text(TableId::ManifestResource, row, NAME, name) {
            return Some(row);
        }
    }
    None
}

/// Whether a content has the byte at an offset of the file.
fn has_byte(content: Content<'_>, offset: u64) -> bool
    ensures { IsTrue result ↔ ((content.entry.offset ≤ offset) × (offset < content.entry.offset + length content.entry.bytes.now)) }
{
    content.offset <= offset && offset - content.offset < content.bytes.len() as u64
}

/// Whether the resource in a row is in this file, and its content has the byte at an offset of the file.
fn contains(directory: Option<Directory<'_>>, view: &View<'_>, row: u32, offset: u64) -> bool
    requires first { 1 ≤ row }
    requires last { row ≤ row_count view.now ManifestResource }
    ensures { (file : List ℕ) (header : Header) (model : Metadata) → IsDirectoryOf file header directory.entry → IsModel view.now model
        → IsTrue result ↔ HasByte file header model row offset }
{
    match location_of(directory, view, row) {
        Ok(Location::Here(content)) => has_byte(content, offset),
        Ok(Location::Elsewhere(_)) => false,
        Err(NotWithin) => false,
    }
}

/// The first row whose resource is in this file and has the byte at an offset of the file in its content; `None` if there is none.
///
/// Its time is linear in the rows.
pub fn resource_at(directory: Option<Directory<'_>>, view: &View<'_>, offset: u64) -> Option<u32>
    ensures sound { (file : List ℕ) (header : Header) (model : Metadata) → IsDirectoryOf file header directory.entry → IsModel view.now model
        → IfSome result (IsFirstWithByte file header model offset) }
    ensures none { (file : List ℕ) (header : Header) (model : Metadata) → IsDirectoryOf file header directory.entry → IsModel view.now model
        → IfNone result ((row : ℕ) → HasRow model ManifestResource row → ¬ HasByte file header model row offset) }
    ensures first { IfSome result (λ row. 1 ≤ row) }
    ensures last { IfSome result (λ row. row ≤ row_count view.now ManifestResource) }
{
    for row in 1..view.count(TableId::ManifestResource) + 1 {
        if contains(directory, view, row, offset) {
            return Some(row);
        }
    }
    None
}
