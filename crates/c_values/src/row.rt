use crate::cell::ClimCell;

/// A row that a C caller gives (II.22).
#[repr(C)]
#[derive(Clone, Copy)]
pub struct ClimRow<'a> {
    /// The cells, in the order of the columns, without padding.
    pub cells: &'a [ClimCell<'a>],
    /// The table, by table number.
    pub table: u8,
}
