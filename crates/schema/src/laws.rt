ghost use Rattle.std.specs.Prelude.{◌≡◌, ◌^◌, ◌<◌, ◌≤◌, ℕ, List, length};
ghost use Rattle.packed.specs.Number.{IsNumber};
ghost use Rattle.table_schema.specs.declared.table.TableId.{TableId as Table};
ghost use Rattle.table_schema.specs.declared.column.Column.{Column as TheColumn};
ghost use Rattle.table_schema.specs.Columns.{columns_of};
ghost use Rattle.schema.specs.Sizes.{Sizes, count_of, width_of, IsWidth};
ghost use Rattle.schema.specs.Offsets.{tables_end};
ghost use Rattle.schema.specs.LaidOut.{number_bytes, IsLaidOut};
ghost use Rattle.schema.specs.Cells.{HoldsCell};

pub use crate::bit_laws::bits_are_known;
pub use crate::field_laws::{low_bytes_stand, widths_follow_from_counts};
pub use crate::location_laws::cells_are_apart;
pub use crate::read_laws::{numbers_are_read, streams_are_read};
pub use table_schema::laws::{
    cells_have_columns, columns_stand, tables_stand, tags_fit, tokens_are_in_order,
};

/// A column has one, two or four bytes.
pub fn widths_are_known()
    ensures { (sizes : Sizes) (column : TheColumn) → IsWidth (width_of sizes column) }
{}

/// The bytes of a number encode the number, if it fits.
pub fn numbers_are_encoded()
    ensures { (width number : ℕ) → number < 256 ^ width → IsNumber width (number_bytes width number) number }
{}

/// The tables of a stream end within it.
pub fn tables_end_within()
    ensures { (stream : List ℕ) (sizes : Sizes) (numbers : List (List (List ℕ))) → IsLaidOut stream sizes numbers
        → tables_end sizes ≤ length stream }
{}

/// Each cell of a stream is at its computed offset, and is read there.
pub fn cells_stand()
    ensures { (stream : List ℕ) (sizes : Sizes) (numbers : List (List (List ℕ))) → IsLaidOut stream sizes numbers
        → (table : Table) (row column : ℕ) → 1 ≤ row → row ≤ count_of sizes table → column < length (columns_of table)
        → HoldsCell stream sizes numbers table row column }
{}

/// A stream has only one list of sizes and one list of numbers.
pub fn stream_is_one()
    ensures sizes { (stream : List ℕ) (sizes others : Sizes) (numbers more : List (List (List ℕ)))
        → IsLaidOut stream sizes numbers → IsLaidOut stream others more → sizes ≡ others }
    ensures numbers { (stream : List ℕ) (sizes others : Sizes) (numbers more : List (List (List ℕ)))
        → IsLaidOut stream sizes numbers → IsLaidOut stream others more → numbers ≡ more }
{}
