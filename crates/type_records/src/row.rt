ghost use Rattle.std.specs.Prelude.{ℕ};
ghost use Rattle.metadata.specs.Cell.{Cell as TheCell, Number, Text, Bytes, Guid, Ref, Start, Sig};
ghost use Rattle.type_records.specs.Shapes.{Shape};
ghost use Rattle.type_records.specs.Shapes as shape;

use crate::signature::IsSignature;
use table_schema::{SigKind, Token};

/// A record of a row: each field is read from the cell with an index.
#[macro_export]
macro_rules! read_row {
    ($row:ident => $record:ident; $($field:ident: $kind:ident($($cell:expr),+)),+ $(,)?) => {
        $record { $($field: $row.$kind($($cell),+)),+ }
    };
}

/// A row of a table, which is read cell by cell. Cell indexes count from 0. A padding column has no cell.
pub trait Row<'m> {
    /// The type of the value of a signature cell.
    type Signature: IsSignature;

    // the cell with this index has this shape
    ghost holds: { Self → ℕ → Shape → Type 0 };

    // the cell with this index has this content
    ghost says: { Self → ℕ → TheCell → Type 0 };

    /// A number.
    fn number(&self, cell_index: usize) -> u32
        requires { holds self.now cell_index shape.number }
        ensures { says self.now cell_index (Number result) };

    /// A string of `#Strings`.
    fn text(&self, cell_index: usize) -> &'m str
        requires { holds self.now cell_index shape.text }
        ensures { says self.now cell_index (Text result.now) };

    /// A blob of `#Blob`.
    fn bytes(&self, cell_index: usize) -> &'m [u8]
        requires { holds self.now cell_index shape.bytes }
        ensures { says self.now cell_index (Bytes result.now) };

    /// A GUID; `None` is null.
    fn guid(&self, cell_index: usize) -> Option<[u8; 16]>
        requires { holds self.now cell_index shape.guid }
        ensures { says self.now cell_index (Guid result) };

    /// A row of a table; `None` is null.
    fn reference(&self, cell_index: usize) -> Option<Token>
        requires { holds self.now cell_index shape.reference }
        ensures { says self.now cell_index (Ref result) };

    /// The first row of an owner's run, in the member table, counted from 1.
    fn start(&self, cell_index: usize) -> u32
        requires { holds self.now cell_index shape.start }
        ensures { says self.now cell_index (Start result) };

    /// A signature, in a column of this kind.
    fn signature(&self, cell_index: usize, column: SigKind) -> Self::Signature
        requires { holds self.now cell_index (shape.signature column) }
        ensures { says self.now cell_index (Sig (Self.Signature.body column result)) };
}
