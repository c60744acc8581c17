ghost use Rattle.c_values.specs.Differences.{HasParts, ReportsDifference};

use comparison::Difference;

/// The first difference of two metadata, for C. The fields that do not belong to its kind are 0.
#[repr(C)]
#[derive(Clone, Copy)]
pub struct ClimDifference {
    /// The index of the cell in its row, from 0.
    pub column: usize,
    /// The row, counted from 1.
    pub row: u32,
    /// The number of rows of the table in the first metadata.
    pub left_count: u32,
    /// The number of rows of the table in the second metadata.
    pub right_count: u32,
    /// What differs: `CLIM_VERSION_DIFFERS` to `CLIM_CELL_DIFFERS` of `clim.h`.
    pub kind: u8,
    /// The table, by table number.
    pub table: u8,
}

/// A difference of something that has no table.
fn of_whole(kind: u8) -> ClimDifference
    ensures { HasParts result kind 0 0 0 0 0 }
{
    ClimDifference {
        column: 0,
        row: 0,
        left_count: 0,
        right_count: 0,
        kind,
        table: 0,
    }
}

/// A difference as a C caller receives it.
pub fn reported_difference(difference: Difference) -> ClimDifference
    ensures { ReportsDifference result difference }
{
    match difference {
        Difference::Version => of_whole(1),
        Difference::UserStrings => of_whole(2),
        Difference::RowCount { table, left, right } => ClimDifference {
            table: table.number(),
            left_count: left,
            right_count: right,
            ..of_whole(3)
        },
        Difference::Cell {
            table,
            row,
            cell_index,
        } => ClimDifference {
            table: table.number(),
            row,
            column: cell_index,
            ..of_whole(4)
        },
    }
}
