use table_schema::Token;

/// A cell of a row (II.22). It borrows from the caller's bytes.
#[derive(Clone, Copy, Debug, PartialEq)]
pub enum CellRef<'a> {
    /// A number.
    Number(u32),
    /// A string of `#Strings`.
    Text(&'a str),
    /// A blob of `#Blob`.
    Bytes(&'a [u8]),
    /// A GUID of `#GUID`; `None` is null.
    Guid(Option<[u8; 16]>),
    /// A row; `None` is null.
    Ref(Option<Token>),
    /// The row of the first member of the owner's run, counted from 1. If neither this owner nor a later one has
    /// members, it is one more than the last member.
    Start(u32),
    /// The blob of a signature (II.23.2).
    Sig(&'a [u8]),
}
