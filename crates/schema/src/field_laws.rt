ghost use Rattle.std.specs.Prelude.{◌≡◌, ◌<◌, ◌%◌, ◌^◌, ℕ, List, length, slice_index, slice_index_or};
ghost use Rattle.table_schema.specs.declared.table.TableId.{TableId as Table};
ghost use Rattle.table_schema.specs.declared.column.Column.{Column as TheColumn};
ghost use Rattle.table_schema.specs.declared.column.ColumnKind.TheVariants as kind;
ghost use Rattle.table_schema.specs.Columns.{col};
ghost use Rattle.schema.specs.Sizes.{Sizes, SameCounts, width_of};
ghost use Rattle.schema.specs.LaidOut.{number_bytes, row_bytes, tables_bytes, fields_of, FitRow};

/// The low bytes of a number that is too large for its field are those of the number modulo the field's
/// range. So any numbers, one for each column, have the bytes of a row that fits.
pub fn low_bytes_stand()
    ensures number { (width number : ℕ) → number_bytes width (number % 256 ^ width) ≡ number_bytes width number }
    ensures row { (sizes : Sizes) (columns : List TheColumn) (numbers : List ℕ)
        → row_bytes sizes columns (fields_of sizes columns numbers) ≡ row_bytes sizes columns numbers }
    ensures fit { (sizes : Sizes) (columns : List TheColumn) (numbers : List ℕ) → length numbers ≡ length columns
        → FitRow sizes columns (fields_of sizes columns numbers) }
    ensures count { (sizes : Sizes) (columns : List TheColumn) (numbers : List ℕ) → length numbers ≡ length columns
        → length (fields_of sizes columns numbers) ≡ length columns }
    ensures each { (sizes : Sizes) (columns : List TheColumn) (numbers : List ℕ) (column : ℕ) → length numbers ≡ length columns → column < length columns
        → slice_index (fields_of sizes columns numbers) column
        ≡ slice_index numbers column % 256 ^ width_of sizes (slice_index_or columns column (col kind.U8)) }
{}

/// Widths and the bytes of rows depend on the row counts and HeapSizes only, not on Sorted or the
/// offset of the first table.
#[tactic(auto, using(crate::proofs::FieldLemmas::width_same, crate::proofs::FieldLemmas::fit_same, crate::proofs::FieldLemmas::row_same, crate::proofs::FieldLemmas::tables_same))]
pub fn widths_follow_from_counts()
    ensures width { (sizes others : Sizes) → SameCounts sizes others
        → (column : TheColumn) → width_of sizes column ≡ width_of others column }
    ensures fit { (sizes others : Sizes) → SameCounts sizes others
        → (columns : List TheColumn) (numbers : List ℕ) → FitRow sizes columns numbers → FitRow others columns numbers }
    ensures row { (sizes others : Sizes) → SameCounts sizes others
        → (columns : List TheColumn) (numbers : List ℕ) → row_bytes sizes columns numbers ≡ row_bytes others columns numbers }
    ensures tables { (sizes others : Sizes) → SameCounts sizes others
        → (listed : List Table) (numbers : List (List (List ℕ))) → tables_bytes sizes listed numbers ≡ tables_bytes others listed numbers }
{}
