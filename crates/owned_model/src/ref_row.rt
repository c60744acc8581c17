ghost use Rattle.owned_model.specs.RefRows.{HoldsAt, SaysAt};

use opening::{CellRef, TableId, Token};
use table_schema::SigKind;
use type_records::Row;

// What the value of a cell of a kind gives.
macro_rules! value_of {
    ($cell:expr, $kind:ident($value:ident) => $content:expr) => {
        match $cell {
            Some(CellRef::$kind($value)) => $content,
            _ => unreachable!(),
        }
    };
}

/// The cells of a row. They borrow from the bytes that were opened.
#[derive(Clone, Copy, Debug)]
pub struct RefRow<'a> {
    pub(crate) table: TableId,
    // The first values are the row's cells; nothing reads the values after them.
    pub(crate) values: [CellRef<'a>; 9],
}

impl<'a> Row<'a> for RefRow<'a> {
    type Signature = &'a [u8];

    ghost holds = { HoldsAt };

    ghost says = { SaysAt };

    fn number(&self, cell_index: usize) -> u32 {
        value_of!(self.values.get(cell_index), Number(number) => *number)
    }

    fn text(&self, cell_index: usize) -> &'a str {
        value_of!(self.values.get(cell_index), Text(text) => *text)
    }

    fn bytes(&self, cell_index: usize) -> &'a [u8] {
        value_of!(self.values.get(cell_index), Bytes(bytes) => *bytes)
    }

    fn guid(&self, cell_index: usize) -> Option<[u8; 16]> {
        value_of!(self.values.get(cell_index), Guid(guid) => *guid)
    }

    fn reference(&self, cell_index: usize) -> Option<Token> {
        value_of!(self.values.get(cell_index), Ref(reference) => *reference)
    }

    fn start(&self, cell_index: usize) -> u32 {
        value_of!(self.values.get(cell_index), Start(row) => *row)
    }

    fn signature(&self, cell_index: usize, _column: SigKind) -> &'a [u8] {
        value_of!(self.values.get(cell_index), Sig(blob) => *blob)
    }
}
