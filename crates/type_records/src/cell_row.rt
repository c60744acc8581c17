ghost use Rattle.std.specs.Prelude.{◌≡◌, Some, option_map, slice_get};
ghost use Rattle.tables.specs.Said.{said};
ghost use Rattle.type_records.specs.Shapes.{IsOfShape};

use crate::row::Row;
use table_schema::SigKind;
use tables::{Cell, Signature, Token};

// What the value of a cell of a kind gives.
macro_rules! value_of {
    ($cell:expr, $kind:ident($value:ident) => $content:expr) => {
        match $cell {
            Cell::$kind($value) => $content,
            _ => unreachable!(),
        }
    };
}

/// A row of owned cells.
#[derive(Clone, Copy, Debug)]
pub struct CellRow<'m> {
    /// The cells, in the order of their columns.
    pub cells: &'m [Cell],
}

impl<'m> Row<'m> for CellRow<'m> {
    type Signature = &'m Signature;

    ghost holds = { λ row cell_index shape. IsOfShape (slice_get row.cells.now cell_index) shape };

    ghost says = { λ row cell_index cell. option_map said (slice_get row.cells.now cell_index) ≡ Some cell };

    fn number(&self, cell_index: usize) -> u32 {
        value_of!(&self.cells[cell_index], Number(number) => *number)
    }

    fn text(&self, cell_index: usize) -> &'m str {
        value_of!(&self.cells[cell_index], Text(text) => text.as_str())
    }

    fn bytes(&self, cell_index: usize) -> &'m [u8] {
        value_of!(&self.cells[cell_index], Bytes(bytes) => bytes.as_slice())
    }

    fn guid(&self, cell_index: usize) -> Option<[u8; 16]> {
        value_of!(&self.cells[cell_index], Guid(guid) => *guid)
    }

    fn reference(&self, cell_index: usize) -> Option<Token> {
        value_of!(&self.cells[cell_index], Ref(reference) => *reference)
    }

    fn start(&self, cell_index: usize) -> u32 {
        value_of!(&self.cells[cell_index], Start(row) => *row)
    }

    fn signature(&self, cell_index: usize, _column: SigKind) -> &'m Signature {
        value_of!(&self.cells[cell_index], Sig(signature) => signature)
    }
}
