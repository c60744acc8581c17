ghost use Rattle.std.specs.Prelude.{◌≡◌, ◌↔◌, IsTrue};
ghost use Rattle.metadata.specs.Kinds.{IsTo, IsOfKind, IsStorable, IsHeld};
ghost use Rattle.tables.specs.Said.{said};

use crate::cell::Cell;
use packed::BLOB_LIMIT;
use table_schema::{Coded, ColumnKind, TableId, Token, lists};

/// The number of bytes of a GUID (II.24.2.5).
const GUID_SIZE: usize = 16;

/// Whether a reference is null or names a row of one of the tables.
fn is_to(listed: &[Option<TableId>], reference: Option<Token>) -> bool
    ensures { IsTrue result ↔ IsTo listed.now reference }
{
    match reference {
        None => true,
        Some(token) => lists(listed, token.table),
    }
}

impl Cell {
    /// Whether a column of this kind takes the cell (II.22).
    ///
    /// A padding column has no cell. A reference may be null in each column of rows, and its row need not exist. A
    /// signature fits each column of signatures, whichever form of signature that column holds.
    pub fn is_of_kind(&self, kind: ColumnKind) -> bool
        ensures { IsTrue result ↔ IsOfKind kind (said self.now) }
    {
        match kind {
            ColumnKind::U8 => matches!(self, Cell::Number(number) if *number < 0x100),
            ColumnKind::U16 => matches!(self, Cell::Number(number) if *number < 0x1_0000),
            // Any number of four bytes.
            ColumnKind::U32 => matches!(self, &Cell::Number(_number)),
            ColumnKind::Padding => false,
            ColumnKind::Text => matches!(self, Cell::Text(_)),
            ColumnKind::Guid => matches!(self, Cell::Guid(_)),
            ColumnKind::Blob => matches!(self, Cell::Bytes(_)),
            ColumnKind::Signature(_) => matches!(self, Cell::Sig(_)),
            ColumnKind::Row(table) => match self {
                Cell::Ref(reference) => is_to(&[Some(table)], *reference),
                _ => false,
            },
            ColumnKind::Coded(coded) => match self {
                Cell::Ref(reference) => is_to(coded.tables(), *reference),
                _ => false,
            },
            ColumnKind::List(_) => matches!(self, Cell::Start(_)),
        }
    }

    /// Whether a heap can hold the cell (II.24.2.3, II.24.2.4): a string without NUL, or fewer than 2^29
    /// bytes. For any other cell it is true.
    pub fn is_storable(&self) -> bool
        ensures { IsTrue result ↔ IsStorable (said self.now) }
    {
        match self {
            Cell::Text(text) => !text.as_str().as_bytes().contains(&0),
            Cell::Bytes(bytes) => bytes.as_slice().len() <= BLOB_LIMIT,
            Cell::Guid(Some(guid)) => guid.as_slice().len() == GUID_SIZE,
            _ => true,
        }
    }

    /// Whether a column of this kind holds the form of the cell's signature (II.22, II.23.2). True for any
    /// other cell and any other column.
    pub fn is_held(&self, kind: ColumnKind) -> bool
        ensures { IsTrue result ↔ IsHeld kind (said self.now) }
    {
        match (kind, self) {
            (ColumnKind::Signature(column), Cell::Sig(signature)) => signature.is_held_by(column),
            _ => true,
        }
    }
}
