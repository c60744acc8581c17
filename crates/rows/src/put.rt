ghost use Rattle.std.specs.Prelude.{◌≡◌, ◌<◌, ◌≤◌, ◌+◌, ◌^◌, ◌++◌, ℕ, List, length, slice_index, OnOk, OnErr, IsOk, vec_len, vec_capacity};
ghost use Rattle.packed.specs.Number.{little_endian};
ghost use Rattle.packed.specs.Offsets.{part};
ghost use Rattle.table_schema.specs.declared.table.TableId.{TableId as Table};
ghost use Rattle.table_schema.specs.Columns.{columns_of};
ghost use Rattle.schema.specs.Sizes.{Sizes, IsWidth};
ghost use Rattle.schema.specs.Offsets.{row_width, offset_in_row};
ghost use Rattle.schema.specs.Cells.{cell_width};
ghost use Rattle.schema.specs.LaidOut.{FitRow, number_bytes, row_bytes};

use schema::Layout;
use std::alloc::AllocError;
use table_schema::TableId;

/// Appends a number as `width` bytes, the lowest first.
fn put_number(bytes: &mut Vec<u8>, width: usize, number: u32) -> Result<(), AllocError>
    requires known { IsWidth width }
    requires fits { number < 256 ^ width }
    ensures ok { OnOk result (bytes.new.items ≡ bytes.old.items ++ number_bytes width number) }
    ensures len { OnOk result (vec_len bytes.new ≡ vec_len bytes.old + width) }
    ensures capacity { vec_capacity bytes.old ≤ vec_capacity bytes.new }
    ensures succeeds { vec_len bytes.old + width ≤ vec_capacity bytes.old → IsOk result }
{
    match width {
        1 => bytes.extend_from_slice(&[number as u8]),
        2 => bytes.extend_from_slice(&(number as u16).to_le_bytes()),
        _ => bytes.extend_from_slice(&number.to_le_bytes()),
    }
}

/// Appends the bytes of a row, as a table stream with this layout has them (II.24.2.6).
///
/// # Errors
///
/// Out of memory only. The bytes are then unchanged.
pub fn put_row(
    bytes: &mut Vec<u8>,
    layout: &Layout,
    table: TableId,
    numbers: &[u32],
) -> Result<(), AllocError>
    // There is one number for each column, and each fits the width of its column.
    requires { FitRow layout.now (columns_of table) numbers.now }
    ensures ok { OnOk result (bytes.new.items ≡ bytes.old.items ++ row_bytes layout.now (columns_of table) numbers.now) }
    ensures err { OnErr result (bytes.new.items ≡ bytes.old.items) }
    // If the vector has capacity for the row, the call succeeds. Its capacity never shrinks.
    ensures len { OnOk result (vec_len bytes.new ≡ vec_len bytes.old + row_width layout.now table) }
    ensures capacity { vec_capacity bytes.old ≤ vec_capacity bytes.new }
    ensures succeeds { vec_len bytes.old + row_width layout.now table ≤ vec_capacity bytes.old → IsOk result }
{
    bytes.reserve(layout.row_width(table))?;
    for (column, number) in numbers.iter().enumerate() {
        put_number(bytes, layout.cell_width(table, column), *number)?;
    }
    Ok(())
}

/// A row that [`put_row`] appends is read back, column by column, whatever bytes are before and after
/// it.
pub fn rows_are_read_again()
    ensures { (sizes : Sizes) (table : Table) (numbers before after : List ℕ) → FitRow sizes (columns_of table) numbers
        → (column : ℕ) → column < length (columns_of table)
        → little_endian (part (before ++ row_bytes sizes (columns_of table) numbers ++ after)
        (length before + offset_in_row sizes table column) (cell_width sizes table column)) ≡ slice_index numbers column }
{}
