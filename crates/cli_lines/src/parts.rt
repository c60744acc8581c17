//! The parts of a line.

use crate::names::Name;
use heap_entries::UserString;
use table_schema::Token;

/// The form in which a report is printed.
#[derive(Clone, Copy, PartialEq, Eq)]
pub enum Form {
    /// Lines of text: printable ASCII, with all else escaped.
    Text,
    /// Lines of text with letters beyond ASCII as they are, for a terminal that reads UTF-8.
    Letters,
    /// A JSON object on each line.
    JsonLines,
}

/// A value in a line.
#[derive(Clone, Copy)]
pub enum Value<'a> {
    /// A number in decimal.
    Number(u64),
    /// A number in eight hexadecimal digits, a string in JSON.
    Hex(u32),
    /// A number in two upper-case hexadecimal digits, a string in JSON.
    Byte(u8),
    /// A text, escaped.
    Text(&'a str),
    /// A text as it is, a string in JSON.
    Plain(&'a str),
    /// The digits of a token, a string in JSON.
    Token(Token),
    /// The digits of a token, or `null`.
    Reference(Option<Token>),
    /// A text in quotes, escaped.
    Quoted(&'a str),
    /// Bytes in hexadecimal between `<` and `>`, a string of the digits in JSON.
    Bytes(&'a [u8]),
    /// A GUID in braces, a string without braces in JSON, or `null`.
    Guid(Option<[u8; 16]>),
    /// A plus sign and a number, the number in JSON.
    Start(u64),
    /// The bytes of a signature between `<` and `>`, an object of its bytes and its text in JSON.
    Signature(&'a [u8], &'a [u8]),
    /// `true`.
    Yes,
    /// `null`.
    Null,
}

/// A part of a line.
#[derive(Clone, Copy)]
pub enum Part<'a> {
    /// In a line of text this text, as it is.
    Word(&'a str),
    /// In a line of text the value, and in JSON a member with this name.
    Field(Name, Value<'a>),
    /// In a line of text the value.
    Note(Value<'a>),
    /// In JSON a member with this name.
    Member(Name, Value<'a>),
    /// A field after a space.
    Spaced(Name, Value<'a>),
    /// A row of a table. In a line of text its number and a colon, and in JSON the members `table`, `row` and `token`.
    RowNumber(Token),
    /// A row of a table. In a line of text its token, and in JSON the members `table`, `row` and `token`.
    RowToken(Token),
    /// In a line of text the UTF-16 units of a user string, escaped. In JSON the member `text`, or `units` as an array of
    /// numbers if they are not a text.
    Units(&'a UserString<'a>),
    /// In JSON the start of a member that is an object.
    Open(Name),
    /// In JSON the end of such a member.
    Close,
}
