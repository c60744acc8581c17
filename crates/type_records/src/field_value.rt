ghost use Rattle.std.specs.Prelude.{◌≡◌, IfOk, map};
ghost use Rattle.tables.specs.Said.{said, all_said};
ghost use Rattle.type_records.specs.Values.{reported};

use std::alloc::{AllocError, Global};
use tables::{Bytes, Cell, Signature, Text, Token};

/// The content of a record's field, borrowed, by the kind of its column (II.22).
#[derive(Clone, Copy)]
pub enum FieldValue<'m> {
    /// A number.
    Number(u32),
    /// A string of `#Strings`.
    Text(&'m str),
    /// The bytes of a blob.
    Bytes(&'m [u8]),
    /// A GUID; `None` is null.
    Guid(Option<[u8; 16]>),
    /// A row; `None` is null.
    Ref(Option<Token>),
    /// The first row of a run of members, counted from 1.
    Start(u32),
    /// A signature.
    Sig(&'m Signature),
}

/// The cell with this content.
fn owned_cell(alloc: Global, value: FieldValue<'_>) -> Result<Cell, AllocError>
    ensures { IfOk result (λ cell. said cell ≡ reported value.entry) }
{
    Ok(match value {
        FieldValue::Number(number) => Cell::Number(number),
        FieldValue::Text(text) => Cell::Text(Text::from(String::from_str(alloc, text)?)),
        FieldValue::Bytes(bytes) => Cell::Bytes(Bytes::from(Vec::from_slice(alloc, bytes)?)),
        FieldValue::Guid(guid) => Cell::Guid(guid),
        FieldValue::Ref(token) => Cell::Ref(token),
        FieldValue::Start(row) => Cell::Start(row),
        FieldValue::Sig(signature) => Cell::Sig(signature.copy(alloc)?),
    })
}

/// The cells with the contents of these fields, in the same order. The row is one allocation.
///
/// # Errors
///
/// Fails only if it is out of memory.
pub fn owned_cells(alloc: Global, values: &[FieldValue<'_>]) -> Result<Vec<Cell>, AllocError>
    ensures { IfOk result (λ cells. all_said cells.items ≡ map reported values.now) }
{
    let mut cells = Vec::with_capacity(alloc, values.len())?;
    for value in values {
        cells.push(owned_cell(alloc, *value)?)?;
    }
    Ok(cells)
}

/// The cells with these contents, each given by its kind and its value. The row is one allocation.
#[macro_export]
macro_rules! owned_row {
    ($alloc:expr; $($kind:ident $value:expr),+ $(,)?) => {
        $crate::owned_cells($alloc, &[$($crate::FieldValue::$kind($value)),+])
    };
}
