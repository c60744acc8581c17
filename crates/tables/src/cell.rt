use crate::bytes::Bytes;
use crate::text::Text;
use signatures::Signature;
use table_schema::Token;

/// A cell of a row (II.22).
#[derive(Debug, PartialEq, Eq, Drop)]
pub enum Cell {
    /// A number.
    Number(u32),
    /// A string of `#Strings`.
    Text(Text),
    /// A blob of `#Blob`.
    Bytes(Bytes),
    /// A GUID; `None` is null.
    Guid(Option<[u8; 16]>),
    /// A row of a table; `None` is null.
    Ref(Option<Token>),
    /// The first row of an owner's run, in the member table, counted from 1.
    Start(u32),
    /// A signature.
    Sig(Signature),
}
