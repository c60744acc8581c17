//! Facts about the definitions of this crate, as public functions with an empty body.
ghost use Rattle.std.specs.Prelude.{◌≡◌, ◌↔◌, ◌≤◌, ◌<◌, ℕ, IsTrue, false, [], take};
ghost use Rattle.table_schema.specs.declared.table.TableId.{TableId as Table};
ghost use Rattle.table_schema.specs.CellColumns.{cell_count};
ghost use Rattle.metadata.specs.Cell.{Cell};
ghost use Rattle.metadata.specs.Metadata.{Metadata};
ghost use Rattle.metadata.specs.Valid.{IsValid};
ghost use Rattle.comparison.specs.Differences.{cell_differences, first_differences, first_differences_but, outline_differences};
ghost use Rattle.comparison.specs.EqualBut.{AreEqualBut};
ghost use Rattle.comparison.specs.Ignored.{is_ignored, no_columns};
ghost use Rattle.comparison.specs.declared.ignored.IgnoredColumns.{IgnoredColumns as TheColumns};
ghost use Rattle.comparison.specs.SameCells.{is_same_cell};

/// The test of two cells is true if and only if they are equal. So each cell that is reported differs, and each that
/// differs is reported.
pub fn cells_are_tested()
    ensures { (first second : Cell) → IsTrue (is_same_cell first second) ↔ (first ≡ second) }
{
    sig_encoder::laws::equality_is_tested();
}

/// Two valid models are equal but for the cells of ignored columns if and only if nothing else differs. It is enough to
/// look for one cell that differs.
pub fn models_without_other_differences_are_equal_but()
    ensures { (ignored : TheColumns) (first second : Metadata) → IsValid first → IsValid second → (limit : ℕ) → 1 ≤ limit
        → (first_differences_but ignored first second limit ≡ []) ↔ AreEqualBut ignored first second }
{
    cells_are_tested();
    table_schema::laws::tables_stand();
}

/// Two valid models are equal if and only if they are equal but for the cells of no column.
pub fn models_equal_but_for_no_columns_are_equal()
    ensures none { (table : Table) (cell_index : ℕ) → is_ignored no_columns table cell_index ≡ false }
    ensures equal { (ignored : TheColumns) (first second : Metadata) → IsValid first → IsValid second
        → ((table : Table) (cell_index : ℕ) → cell_index < cell_count table → is_ignored ignored table cell_index ≡ false)
        → AreEqualBut ignored first second ↔ (first ≡ second) }
{
    metadata::laws::models_of_same_parts_are_one();
}

/// Two valid models are equal if and only if nothing differs. It is enough to look for one cell that differs.
pub fn models_without_differences_are_equal()
    ensures first { (first second : Metadata) → IsValid first → IsValid second → (limit : ℕ) → 1 ≤ limit
        → (first_differences first second limit ≡ []) ↔ (first ≡ second) }
    ensures parts { (first second : Metadata) → IsValid first → IsValid second → (limit : ℕ) → 1 ≤ limit
        → ((outline_differences first second ≡ []) × (take limit (cell_differences first second) ≡ [])) ↔ (first ≡ second) }
{
    cells_are_tested();
    table_schema::laws::tables_stand();
    models_equal_but_for_no_columns_are_equal();
}
