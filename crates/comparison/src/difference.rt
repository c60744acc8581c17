use table_schema::TableId;

/// Something that differs between two metadata.
#[derive(Clone, Copy, Debug, PartialEq, Eq)]
pub enum Difference {
    /// The version string (II.24.2.1).
    Version,
    /// The user strings: the bytes of `#US`, padded with zeros to a multiple of four (II.24.2.4).
    UserStrings,
    /// The number of rows of a table (II.22).
    RowCount {
        /// The table.
        table: TableId,
        /// Its number of rows in the first metadata.
        left: u32,
        /// Its number of rows in the second metadata.
        right: u32,
    },
    /// A cell of a row that both metadata have (II.22).
    Cell {
        /// The table.
        table: TableId,
        /// The row, counted from 1.
        row: u32,
        /// The index of the cell in the row, counted from 0.
        cell_index: usize,
    },
}
