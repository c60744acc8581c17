//! The line of a row of each table, as a list of pieces (II.6 and II.10).
ghost use Rattle.std.specs.Prelude.{◌≡◌, map};
ghost use Rattle.cli_declarations.specs.Layouts.{describing_parts, parts_of};
ghost use Rattle.cli_declarations.specs.Shown.{AreWithin, shown};

use navigation::Link;
use opening::TableId;
use type_heads::FlagTable;

/// What a row is referred to by.
#[derive(Clone, Copy)]
pub enum Naming {
    /// Its token.
    Token,
    /// Its name (II.5.3).
    Name,
    /// The reference to a type, to a parameter of a method, or to a member with its signature (II.15.3, II.22.25); or the token
    /// of any other row.
    Reference,
}

/// A piece of the line of a row. Numbers are indexes of cells in the row, from 0.
#[derive(Clone, Copy)]
pub enum Piece {
    /// This text.
    Word(&'static str),
    /// The words of the flags in a cell, a space before each (II.23.1).
    Flags(FlagTable, usize),
    /// The name in a cell (II.5.3), up to the limit.
    Text(usize),
    /// The number in a cell, in decimal.
    Number(usize),
    /// Unless the text in a cell is empty: this word, and the text in quotes.
    QuotedAfter(&'static str, usize),
    /// Unless the bytes in a cell are empty: this word, and the bytes in hexadecimal in parentheses.
    BytesAfter(&'static str, usize),
    /// The public key, or the token of one, in the second cell, by the flags in the first (II.6.3).
    Key(usize, usize),
    /// The first bytes in a cell, in hexadecimal, up to the limit of values.
    FirstBytes(usize),
    /// The signature of the field that the row is (II.23.2), the declaration of the method (II.15.3) or the property (II.17), or the
    /// value of the attribute (II.21).
    Declaration,
    /// What the row is referred to by.
    Own(Naming),
    /// Unless the reference in a cell is null: this word, and what the row is referred to by.
    After(&'static str, Naming, usize),
    /// The number in a cell, in eight hexadecimal digits.
    EightDigits(usize),
    /// Unless the GUID in a cell is null: the GUID in braces, in a comment.
    GuidComment(usize),
    /// The action in a cell (II.22.11).
    Action(usize),
    /// What the first row that refers to the row adds to it; nothing if there is none.
    Linked(Link),
    /// Unless no row refers to the row: the first word, what the rows that refer to it are in its head, with commas between
    /// them, and the last word (II.10.1.7, II.12.2).
    Listed(Link, &'static str, &'static str),
}

use Naming::{Name, Reference};
use Piece::{
    Action, After, BytesAfter, Declaration, EightDigits, FirstBytes, Flags, GuidComment, Key,
    Linked, Listed, Number, Own, QuotedAfter, Text, Word,
};

macro_rules! pieces {
    ($($piece:expr;)*) => {
        &[$($piece),*]
    };
}

/// The pieces of the line of a row that describes another, and of an event and a property. A row of a table that is not named
/// here has none.
#[tactic(auto, unfolding(table_schema::specs::CellColumns::cell_columns))]
fn describing_pieces(table: TableId) -> &'static [Piece]
    ensures parts { map shown result.now ≡ describing_parts table }
    ensures within { AreWithin table (map shown result.now) }
{
    match table {
        TableId::GenericParam => pieces![
            Word(".param type"); Flags(FlagTable::Generic, 1); Word(" "); Text(3); Word(" ["); Number(0); Word("]"); After(" of ", Name, 2);
        ],
        TableId::GenericParamConstraint => pieces![
            Word(".param constraint"); After(" ", Name, 0); After(" ", Naming::Token, 0); After(", ", Name, 1);
        ],
        TableId::ExportedType => pieces![
            Word(".class extern"); Flags(FlagTable::Type, 0); Word(" "); Own(Name); After(" in ", Naming::Token, 4); After(" ", Name, 4);
        ],
        TableId::MethodImpl => pieces![
            Word(".override"); After(" ", Reference, 2); After(" with ", Reference, 1); After(" in ", Name, 0);
        ],
        TableId::Event => pieces![
            Word("  .event"); Flags(FlagTable::Mapped, 0); After(" ", Name, 2); Word(" "); Own(Name);
        ],
        TableId::Property => pieces![
            Word("  .property"); Flags(FlagTable::Mapped, 0); Word(" "); Declaration; Linked(Link::Constants);
        ],
        TableId::MethodSemantics => pieces![
            Word("   "); Flags(FlagTable::Semantics, 0); After(" ", Reference, 1); After(" of ", Name, 2);
        ],
        TableId::ImplMap => pieces![
            Word(".pinvokeimpl("); After("\"", Name, 3); Word("\""); QuotedAfter(" as ", 2); Flags(FlagTable::Import, 0); Word(")"); After(" of ", Name, 1);
        ],
        TableId::DeclSecurity => pieces![
            Word(".permissionset "); Action(0); Word(" = ("); FirstBytes(2); Word(")"); After(" of ", Name, 1);
        ],
        TableId::CustomAttribute => pieces![
            Word(".custom"); After(" ", Reference, 1); Declaration; After(" of ", Reference, 0);
        ],
        _ => &[],
    }
}

/// The pieces of the line of a row.
#[tactic(auto, unfolding(table_schema::specs::CellColumns::cell_columns))]
pub(crate) fn pieces_of(table: TableId) -> &'static [Piece]
    ensures parts { map shown result.now ≡ parts_of table }
    ensures within { AreWithin table (map shown result.now) }
{
    match table {
        TableId::Assembly => pieces![
            Word(".assembly"); Flags(FlagTable::Assembly, 5); Word(" "); Text(7); Word(" { .hash algorithm 0x"); EightDigits(0);
            Word(" .ver "); Number(1); Word(":"); Number(2); Word(":"); Number(3); Word(":"); Number(4);
            QuotedAfter(" .culture ", 8); BytesAfter(" .publickey = ", 6); Word(" }");
        ],
        TableId::AssemblyRef => pieces![
            Word(".assembly extern"); Flags(FlagTable::Assembly, 4); Word(" "); Text(6);
            Word(" { .ver "); Number(0); Word(":"); Number(1); Word(":"); Number(2); Word(":"); Number(3);
            QuotedAfter(" .culture ", 7); Key(4, 5); Word(" }");
        ],
        TableId::Module => pieces![Word(".module "); Text(1); GuidComment(2);],
        TableId::ModuleRef => pieces![Word(".module extern "); Text(0);],
        TableId::File => pieces![Word(".file"); Flags(FlagTable::File, 0); Word(" "); Text(1);],
        TableId::ManifestResource => pieces![
            Word(".mresource"); Flags(FlagTable::Resource, 1); Word(" "); Text(2);
        ],
        TableId::TypeDef => pieces![
            Word(".class"); Flags(FlagTable::Type, 0); Word(" "); Own(Name); Listed(Link::GenericParams, "<", ">");
            After(" extends ", Name, 3); Listed(Link::Interfaces, " implements ", ""); Linked(Link::TypeLayouts);
        ],
        TableId::Field => pieces![
            Word("  .field"); Linked(Link::FieldOffsets); Flags(FlagTable::Field, 0); Linked(Link::Marshalling); Word(" ");
            Declaration; Word(" "); Own(Name); Linked(Link::Constants); Linked(Link::FieldData);
        ],
        TableId::MethodDef => pieces![
            Word("  .method"); Flags(FlagTable::Method, 2); Word(" "); Declaration; Flags(FlagTable::Implementation, 1);
        ],
        TableId::Param => pieces![Word("."); Own(Reference); Linked(Link::Constants);],
        TableId::InterfaceImpl => pieces![
            Word(".interfaceimpl type"); After(" ", Name, 0); After(" implements ", Name, 1);
        ],
        TableId::TypeRef => pieces![Word(".typeref "); Own(Name);],
        TableId::MemberRef => pieces![Word(".memberref "); Own(Reference);],
        _ => describing_pieces(table),
    }
}
