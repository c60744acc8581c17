ghost use Rattle.std.specs.Prelude.{◌≡◌, ◌<◌, ℕ, All, length, sum_by};
ghost use Rattle.std.specs.List.{AllByRecursion};
ghost use Rattle.table_schema.specs.declared.table.TableId.{TableId as Table};
ghost use Rattle.schema.specs.Sizes.{Sizes, count_of};
ghost use Rattle.table_schema.specs.Tables.{tables};
ghost use Rattle.table_schema.specs.CellColumns.{cell_count};
ghost use Rattle.heap_entries.specs.Entries.{HasNoNul};
ghost use Rattle.metadata.specs.Lookups.{HasRow};
ghost use Rattle.metadata.specs.Metadata.{Metadata, rows_of, count_in, cell_in};
ghost use Rattle.metadata.specs.Valid.{IsValid};
ghost use Rattle.root_writer.specs.Numbers.{numbers};
ghost use Rattle.root_writer.specs.Pools.{texts_of, used};
ghost use Rattle.root_writer.specs.Flat.{cells_of, tables_in};
ghost use Rattle.root_writer.specs.Numbered.{flat, CanBeNumbered};

/// The numbers of a model as one list are what `Writer` needs for tables with these row counts: it finds them again by
/// table, row and column, and their number is right.
pub fn numbers_are_put()
    ensures back { (model : Metadata) (sizes : Sizes) → ((table : Table) → count_of sizes table ≡ count_in model table)
        → tables_in sizes tables (flat (numbers model)) ≡ numbers model }
    ensures many { (model : Metadata) (sizes : Sizes) → ((table : Table) → count_of sizes table ≡ count_in model table)
        → length (flat (numbers model)) ≡ sum_by (cells_of sizes) tables }
{}

/// The texts of a valid model have no NUL, and each of its cells can be numbered.
pub fn cells_can_be_numbered()
    ensures texts { (model : Metadata) → IsValid model → All HasNoNul (used texts_of model) }
    ensures cell { (model : Metadata) → IsValid model → (table : Table) (row cell_index : ℕ) → HasRow model table row → cell_index < cell_count table
        → CanBeNumbered (cell_in model table row cell_index) }
    ensures rows { (model : Metadata) → IsValid model → (table : Table) → AllByRecursion (AllByRecursion CanBeNumbered) (rows_of model table) }
{
    table_schema::laws::tables_stand();
}
