/// A cell of a row, for C (II.22). In a cell that a call writes, the fields that do not belong to its kind are 0 or no
/// bytes. In a cell that is given, nothing looks at them.
#[repr(C)]
#[derive(Clone, Copy)]
pub struct ClimCell<'a> {
    /// A text, a blob or a signature blob.
    pub bytes: &'a [u8],
    /// A number, the number of a row, or the first member of a run.
    pub number: u32,
    /// The kind of the cell: `CLIM_NUMBER` to `CLIM_SIGNATURE` of `clim.h`.
    pub kind: u8,
    /// The table of a row, by table number.
    pub table: u8,
    /// A GUID.
    pub guid: [u8; 16],
}

impl<'a> ClimCell<'a> {
    ghost use Rattle.c_values.specs.Cells.{HasFields};

    /// A cell by its fields.
    #[inline(always)]
    pub fn new(kind: u8, bytes: &'a [u8], number: u32, table: u8, guid: [u8; 16]) -> ClimCell<'a>
        ensures { HasFields result kind bytes.now number table guid }
    {
        ClimCell {
            bytes,
            number,
            kind,
            table,
            guid,
        }
    }
}
