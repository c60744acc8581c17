/// The kind of a cell that a C caller gives: `CLIM_NUMBER` to `CLIM_SIGNATURE` of `clim.h`.
#[derive(Clone, Copy)]
pub enum CellKind {
    /// A number.
    Number,
    /// A string of `#Strings`.
    Text,
    /// A blob of `#Blob`.
    Blob,
    /// No GUID.
    NullGuid,
    /// A GUID.
    Guid,
    /// No row.
    NullRow,
    /// A row of a table.
    Row,
    /// The first row of an owner's run.
    Start,
    /// A signature, by its blob.
    Signature,
}

impl CellKind {
    ghost use Rattle.std.specs.Prelude.{◌≡◌, IfSome, Some};
    ghost use Rattle.c_values.specs.Cells.{kind_number};
    ghost use Rattle.c_values.specs.declared.cell_kind.CellKind.{CellKind as Kind};

    /// The kind with a number; `None` if no kind has it.
    pub fn from_number(number: u8) -> Option<CellKind>
        ensures sound { IfSome result (λ kind. kind_number kind ≡ number) }
        ensures complete { (kind : Kind) → kind_number kind ≡ number → result ≡ Some kind }
    {
        match number {
            1 => Some(CellKind::Number),
            2 => Some(CellKind::Text),
            3 => Some(CellKind::Blob),
            4 => Some(CellKind::NullGuid),
            5 => Some(CellKind::Guid),
            6 => Some(CellKind::NullRow),
            7 => Some(CellKind::Row),
            8 => Some(CellKind::Start),
            9 => Some(CellKind::Signature),
            _ => None,
        }
    }
}
