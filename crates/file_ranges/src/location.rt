//! Where the resource in a row of ManifestResource is (II.22.24).
ghost use Rattle.std.specs.Prelude.{◌≡◌, ◌≤◌, ℕ, List, IfOk, IfSome, IsOkAnd, IsSomeAnd};
ghost use Rattle.cli_header.specs.declared.header.CliHeader.{CliHeader as Header};
ghost use Rattle.metadata.specs.Metadata.{Metadata};
ghost use Rattle.metadata.specs.Model.{IsModel};
ghost use Rattle.opening.specs.Views.{row_count};
ghost use Rattle.file_ranges.specs.Resources.{IsDirectoryOf, IsLocation, IsStored, IsThere, Where, seen};
ghost use Rattle.table_schema.specs.declared.table.TableId.TheVariants.{ManifestResource};

use crate::directory::{Content, Directory};
use navigation::cells;
use opening::{TableId, Token, View};

/// The index of the cell with the offset of a resource in its directory (II.22.24).
const OFFSET: usize = 0;

/// The index of the cell with the file or the assembly that has a resource (II.22.24).
const IMPLEMENTATION: usize = 3;

/// Where a resource is.
#[derive(Clone, Copy)]
pub enum Location<'a> {
    /// In this file.
    Here(Content<'a>),
    /// In the file or the assembly of this row.
    Elsewhere(Token),
}

/// The resource is not within the resources directory, or the file does not have this directory.
#[derive(Clone, Copy, Debug, PartialEq, Eq)]
pub struct NotWithin;

/// The content with this offset in a directory; `None` if it is not within the directory, or if there is none.
fn content_in(directory: Option<Directory<'_>>, relative: u32) -> Option<Content<'_>>
    ensures sound { (file : List ℕ) (header : Header) → IsDirectoryOf file header directory.entry
        → IfSome result (λ found. IsStored file header relative found.offset found.bytes.now) }
    ensures complete { (file : List ℕ) (header : Header) → IsDirectoryOf file header directory.entry → (offset : ℕ) (content : List ℕ)
        → IsStored file header relative offset content → IsSomeAnd result (λ found. (found.offset ≡ offset) × (found.bytes.now ≡ content)) }
{
    packed::laws::fields_are_parts();
    pe::laws::images_are_read();
    match directory {
        Some(directory) => directory.content(relative),
        None => None,
    }
}

/// Where the resource in a row is, by the resources directory of the file. It takes constant time.
///
/// # Errors
///
/// The resource is in this file, and is not within the resources directory.
#[tactic(auto, unfolding(table_schema::specs::CellColumns::cell_columns))]
pub fn location_of<'a>(
    directory: Option<Directory<'a>>,
    view: &View<'_>,
    row: u32,
) -> Result<Location<'a>, NotWithin>
    requires first { 1 ≤ row }
    requires last { row ≤ row_count view.now ManifestResource }
    ensures sound { (file : List ℕ) (header : Header) (model : Metadata) → IsDirectoryOf file header directory.entry → IsModel view.now model
        → IfOk result (λ location. IsLocation file header model row (seen location)) }
    // If it is not found, it is nowhere.
    ensures complete { (file : List ℕ) (header : Header) (model : Metadata) → IsDirectoryOf file header directory.entry → IsModel view.now model
        → (location : Where) → IsLocation file header model row location → IsOkAnd result (λ found. seen found ≡ location) }
    ensures there { IfOk result (λ location. IsThere (row_count view.now) (seen location)) }
{
    match cells::reference(view, TableId::ManifestResource, row, IMPLEMENTATION) {
        Some(token) => Ok(Location::Elsewhere(token)),
        None => {
            let relative = cells::number(view, TableId::ManifestResource, row, OFFSET);
            match content_in(directory, relative) {
                Some(content) => Ok(Location::Here(content)),
                None => Err(NotWithin),
            }
        }
    }
}
