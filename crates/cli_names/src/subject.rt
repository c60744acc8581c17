//! The row that an argument means.
ghost use Rattle.std.specs.Prelude.{◌≤◌, IfNone, IfOk, IfSome};
ghost use Rattle.table_schema.specs.declared.token.Token.{Token as TheToken};
ghost use Rattle.metadata.specs.Metadata.{Metadata};
ghost use Rattle.metadata.specs.Model.{IsModel};
ghost use Rattle.opening.specs.Views.{row_count};
ghost use Rattle.cli_names.specs.Subjects.{IsSubject};

use crate::path::type_meant;
use opening::{TableId, Token, View};
use std::alloc::{AllocError, Global};

/// A type or another row, as an argument names it.
#[derive(Clone, Copy, PartialEq, Eq)]
pub enum Subject<'s> {
    /// The first type with this path: the names of the types that enclose it, the outermost first, and its own, with slashes
    /// between them, as in `Namespace.Outer/Inner` (II.22.32, II.22.37). If no type has the path, and it is a name alone, the
    /// only type with this name.
    Path(&'s str),
    /// The row with this token, of any table.
    Row(Token),
}

/// The row that is a subject; `None` if there is none. For a path it takes time in proportion to the number of types and the
/// bytes of the path.
///
/// # Errors
///
/// Out of memory.
pub fn found_row(
    alloc: Global,
    view: &View<'_>,
    subject: Subject<'_>,
) -> Result<Option<Token>, AllocError>
    ensures sound { (model : Metadata) → IsModel view.now model → IfOk result (λ found. IfSome found (IsSubject model subject.entry)) }
    ensures none { (model : Metadata) → IsModel view.now model → IfOk result (λ found. IfNone found ((of : TheToken) → ¬ IsSubject model subject.entry of)) }
    ensures first { IfOk result (λ found. IfSome found (λ of. 1 ≤ of.row)) }
    ensures last { IfOk result (λ found. IfSome found (λ of. of.row ≤ row_count view.now of.table)) }
{
    metadata::laws::models_are_read();
    match subject {
        Subject::Path(path) => match type_meant(alloc, view, path)? {
            Some(row) => {
                let table = TableId::TypeDef;
                Ok(Some(Token { table, row }))
            }
            None => Ok(None),
        },
        Subject::Row(token) => {
            if token.row == 0 || token.row > view.count(token.table) {
                return Ok(None);
            }
            Ok(Some(token))
        }
    }
}
