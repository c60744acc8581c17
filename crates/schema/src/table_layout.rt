/// The offsets of a table and its columns.
#[derive(Clone, Copy)]
pub struct TableLayout {
    /// The offset of the table in the stream.
    pub start: usize,
    /// The number of bytes of a row.
    pub row_width: u8,
    /// The offset of each column in its row; after the last one, the end of the row.
    pub offsets: [u8; 10],
}
