//! The bodies of methods in a file.
ghost use Rattle.std.specs.Prelude.{◌≡◌, ◌≤◌, ◌^◌, IfSome, length};
ghost use Rattle.metadata.specs.Metadata.{Metadata};
ghost use Rattle.metadata.specs.Model.{IsModel};
ghost use Rattle.opening.specs.Views.{row_count};
ghost use Rattle.table_schema.specs.declared.table.TableId.TheVariants.{MethodDef};
ghost use Rattle.cli_contents.specs.Bodies.{body_at, body_from, body_of};

use file_ranges::body_end;
use opening::{TableId, View, number_or_zero};
use pe::Pe;

/// The cells of a method: its address, an RVA, and its ImplFlags (II.22.26).
const RVA: usize = 0;

const IMPL_FLAGS: usize = 1;

/// The number of the types of code, of which the first is CIL (II.23.1.10).
const CODE_TYPES: u32 = 4;

/// The body of a method in a file (II.25.4), or the data of a field (II.22.18).
#[derive(Clone, Copy)]
pub(crate) struct Body {
    /// The row of the method or of the field, from 1.
    pub row: u32,
    /// The file offset of its first byte.
    pub start: usize,
    /// Its number of bytes: that of a body with its header and its data sections, and of data 0 if it is not known.
    pub size: usize,
}

/// The body of a method that begins at an offset of a file.
fn body_from(file: &[u8], row: u32, start: usize) -> Option<Body>
    requires small { length file.now ≤ 2 ^ 30 }
    requires within { start ≤ length file.now }
    ensures body { result ≡ body_from file.now row start }
    ensures row { IfSome result (λ body. body.row ≡ row) }
{
    let (_, body) = file.split_at(start);
    let size = body_end(body)?;
    Some(Body { row, start, size })
}

/// The body of a method with this address and these ImplFlags, if it has code of CIL in the file.
#[tactic(auto, unfolding(crate::specs::Bodies::body_at))]
fn body_at(pe: &Pe<'_>, row: u32, rva: u32, flags: u32) -> Option<Body>
    requires { length pe.now.bytes ≤ 2 ^ 30 }
    ensures body { result ≡ body_at pe.now row rva flags }
    ensures row { IfSome result (λ body. body.row ≡ row) }
{
    if rva == 0 || flags % CODE_TYPES != 0 {
        return None;
    }
    let range = pe.range(rva, 1)?;
    body_from(pe.bytes(), row, range.start)
}

/// The body of a method, if it has code of CIL in the file.
#[tactic(auto, unfolding(table_schema::specs::CellColumns::cell_columns))]
pub(crate) fn body_of(pe: &Pe<'_>, view: &View<'_>, row: u32) -> Option<Body>
    requires small { length pe.now.bytes ≤ 2 ^ 30 }
    requires first { 1 ≤ row }
    requires last { row ≤ row_count view.now MethodDef }
    ensures body { (model : Metadata) → IsModel view.now model → result ≡ body_of pe.now model row }
    ensures row { IfSome result (λ body. body.row ≡ row) }
{
    let rva = number_or_zero(view, TableId::MethodDef, row, RVA);
    let flags = number_or_zero(view, TableId::MethodDef, row, IMPL_FLAGS);
    body_at(pe, row, rva, flags)
}
