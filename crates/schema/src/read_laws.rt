ghost use Rattle.std.specs.Prelude.{◌≡◌, ◌^◌, ◌<◌, ◌≤◌, ℕ, List, length, get_or};
ghost use Rattle.packed.specs.Rule.{AllHold};
ghost use Rattle.table_schema.specs.declared.table.TableId.{TableId as Table};
ghost use Rattle.table_schema.specs.Columns.{columns_of};
ghost use Rattle.schema.specs.Sizes.{Sizes, count_of};
ghost use Rattle.schema.specs.LaidOut.{number_in, IsLaidOut, IsTableStream};
ghost use Rattle.schema.specs.Header.{sizes_of};
ghost use Rattle.schema.specs.Rules.{rules_of_stream};
ghost use Rattle.schema.specs.Cells.{number_at, numbers_at};

/// A table stream satisfies all rules, and its sizes are those of its header. Bytes that satisfy all
/// rules are a table stream with these sizes.
pub fn streams_are_read()
    ensures rules_hold { (stream : List ℕ) (sizes : Sizes) (numbers : List (List (List ℕ))) → IsLaidOut stream sizes numbers
        → AllHold (rules_of_stream stream) }
    ensures said { (stream : List ℕ) (sizes : Sizes) (numbers : List (List (List ℕ))) → IsLaidOut stream sizes numbers
        → sizes ≡ sizes_of stream }
    ensures sound { (stream : List ℕ) → ((k : ℕ) → get_or stream k 0 < 2 ^ 8) → AllHold (rules_of_stream stream)
        → IsTableStream stream (sizes_of stream) }
{}

/// The numbers of a stream are those that are read at the offsets of its cells.
pub fn numbers_are_read()
    ensures is { (stream : List ℕ) (sizes : Sizes) (numbers : List (List (List ℕ))) → IsLaidOut stream sizes numbers
        → numbers ≡ numbers_at stream sizes }
    ensures each { (stream : List ℕ) (sizes : Sizes) (table : Table) (row column : ℕ) → 1 ≤ row → row ≤ count_of sizes table
        → column < length (columns_of table)
        → number_in (numbers_at stream sizes) table row column ≡ number_at stream sizes table row column }
{}
