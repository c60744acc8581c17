use crate::coded::Coded;
use crate::table::TableId;

/// The kind of the signatures in a column (II.23.2).
#[derive(Clone, Copy, Debug, PartialEq, Eq)]
pub enum SigKind {
    /// Of a field (II.23.2.4).
    Field,
    /// Of a method that this module defines (II.23.2.1).
    MethodDef,
    /// Of a field or a method of another module (II.23.2.2).
    MemberRef,
    /// Of local variables, or of a method that is called by its address (II.23.2.3, II.23.2.6).
    StandAlone,
    /// Of a property (II.23.2.5).
    Property,
    /// Of a type (II.23.2.14).
    TypeSpec,
    /// Of the arguments of a generic method (II.23.2.15).
    Instance,
}

/// The kind of the cells in a column (II.22).
#[derive(Clone, Copy, Debug, PartialEq, Eq)]
pub enum ColumnKind {
    /// A number of one byte.
    U8,
    /// A number of two bytes.
    U16,
    /// A number of four bytes.
    U32,
    /// A byte without meaning: ignored when read, written as 0.
    Padding,
    /// An index into `#Strings`.
    Text,
    /// An index into `#GUID`.
    Guid,
    /// An index into `#Blob`.
    Blob,
    /// An index into `#Blob`, to a signature.
    Signature(SigKind),
    /// A row of a table: a simple index.
    Row(TableId),
    /// A row of one of several tables: a coded index.
    Coded(Coded),
    /// The first row of a run in a table, which ends before the run of the next row: a list index.
    List(TableId),
}

/// A column of a table.
#[derive(Clone, Copy, Debug, PartialEq, Eq)]
pub struct Column {
    /// The kind of its cells.
    pub kind: ColumnKind,
    /// Whether its cells may be null, so that they refer to no row. It is true only for some coded indexes.
    pub nullable: bool,
}
