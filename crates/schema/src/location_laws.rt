ghost use Rattle.std.specs.Prelude.{◌≡◌, ℕ};
ghost use Rattle.table_schema.specs.declared.table.TableId.{TableId as Table};
ghost use Rattle.schema.specs.Sizes.{Sizes};
ghost use Rattle.schema.specs.LocatedCells.{HasCell};

/// At most one cell has a byte.
pub fn cells_are_apart()
    ensures table { (sizes : Sizes) (table other : Table) (row column other_row other_column offset : ℕ)
        → HasCell sizes table row column offset → HasCell sizes other other_row other_column offset → table ≡ other }
    ensures row { (sizes : Sizes) (table other : Table) (row column other_row other_column offset : ℕ)
        → HasCell sizes table row column offset → HasCell sizes other other_row other_column offset → row ≡ other_row }
    ensures column { (sizes : Sizes) (table other : Table) (row column other_row other_column offset : ℕ)
        → HasCell sizes table row column offset → HasCell sizes other other_row other_column offset → column ≡ other_column }
{
    table_schema::laws::tables_stand();
}
