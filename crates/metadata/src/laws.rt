ghost use Rattle.std.specs.Prelude.{◌≡◌, ◌↔◌, ℕ, ◌^◌, ◌<◌, ◌≤◌, List, Some, length, slice_index};
ghost use Rattle.packed.specs.Rule.{AllHold};
ghost use Rattle.root.specs.Fields.{root_read};
ghost use Rattle.root.specs.declared.kind.Kind.TheVariants.{UserStrings};
ghost use Rattle.cli_header.specs.declared.header.CliHeader.{CliHeader};
ghost use Rattle.heap_entries.specs.Padding.{zero_padded};
ghost use Rattle.table_schema.specs.declared.table.TableId.{TableId as Table};
ghost use Rattle.table_schema.specs.declared.token.Token.{Token};
ghost use Rattle.table_schema.specs.declared.coded.Coded.{Coded as TheCoded};
ghost use Rattle.table_schema.specs.declared.column.ColumnKind.TheVariants.{Coded};
ghost use Rattle.table_schema.specs.CodedIndexes.{IsCoded};
ghost use Rattle.table_schema.specs.Columns.{key_of};
ghost use Rattle.schema.specs.LaidOut.{IsTableStream};
ghost use Rattle.metadata.specs.Cell.{Cell, Ref};
ghost use Rattle.metadata.specs.Kinds.{IsOfKind};
ghost use Rattle.metadata.specs.Lookups.{IsKeyCell};
ghost use Rattle.metadata.specs.Metadata.{Metadata, row_of, count_in, cell_in};
ghost use Rattle.metadata.specs.Source.{Source, rows_in, number_of};
ghost use Rattle.metadata.specs.Streams.{stream_in};
ghost use Rattle.table_schema.specs.CellColumns.{cell_count, column_of};
ghost use Rattle.metadata.specs.Rows.{IsCell};
ghost use Rattle.metadata.specs.RowRules.{IsInOrder, AreByKey};
ghost use Rattle.metadata.specs.Links.{links_in, AreLinked};
ghost use Rattle.metadata.specs.Model.{IsModel, IsModelOfFile};
ghost use Rattle.metadata.specs.SourceAt.{tables_in, source_of};
ghost use Rattle.metadata.specs.Valid.{IsValid, kind_at};
ghost use Rattle.metadata.specs.KeyOrder.{key_in, key_number, row_number, IsKeyOrdered};
ghost use Rattle.metadata.specs.Same.{SaysSame};
ghost use Rattle.metadata.specs.Refusals.{refusals_of};
ghost use Rattle.metadata.specs.Rules.{rules_of_metadata, rules_of_file};

/// A list of bytes satisfies all rules for a root if and only if it has a model. It has at most one model.
pub fn roots_have_models()
    ensures met { (offset : ℕ) (root : List ℕ) (model : Metadata) → IsModel root model → AllHold (rules_of_metadata offset root) }
    ensures sound { (offset : ℕ) (root : List ℕ) → ((k : ℕ) → slice_index root k < 2 ^ 8) → AllHold (rules_of_metadata offset root)
        → (model : Metadata) × IsModel root model }
    ensures one { (root : List ℕ) (model other : Metadata) → IsModel root model → IsModel root other → model ≡ other }
{
    root::laws::roots_are_read();
    schema::laws::streams_are_read();
    schema::laws::numbers_are_read();
    heap_entries::laws::entries_are_one();
    sig_grammar::laws::signatures_are_read();
}

/// A list of bytes satisfies all rules for a file if and only if it has a CLI header and a model. It has at
/// most one of each.
pub fn files_have_models()
    ensures met { (file : List ℕ) (header : CliHeader) (model : Metadata) → IsModelOfFile file header model → AllHold (rules_of_file file) }
    ensures sound { (file : List ℕ) → ((k : ℕ) → slice_index file k < 2 ^ 8) → AllHold (rules_of_file file)
        → (header : CliHeader) × (model : Metadata) × IsModelOfFile file header model }
    ensures one { (file : List ℕ) (header other : CliHeader) (model more : Metadata) → IsModelOfFile file header model → IsModelOfFile file other more
        → (header ≡ other) × (model ≡ more) }
{
    pe::laws::images_are_read();
    cli_header::laws::headers_are_read();
    roots_have_models();
    models_are_read();
}

/// The parts of a root's model are those that are read from the root.
pub fn models_are_read()
    ensures version { (root : List ℕ) (model : Metadata) → IsModel root model → model.version ≡ (root_read root).version }
    ensures user { (root : List ℕ) (model : Metadata) → IsModel root model → model.user ≡ zero_padded (stream_in root (root_read root).headers UserStrings) }
    ensures stream { (root : List ℕ) (model : Metadata) → IsModel root model → IsTableStream (tables_in root) (source_of root).sizes }
    ensures count { (root : List ℕ) (model : Metadata) → IsModel root model → (table : Table) → count_in model table ≡ rows_in (source_of root) table }
    ensures cells { (root : List ℕ) (model : Metadata) → IsModel root model → (table : Table) (row cell_index : ℕ)
        → 1 ≤ row → row ≤ rows_in (source_of root) table → cell_index < cell_count table
        → IsCell (source_of root) table row cell_index (cell_in model table row cell_index) }
    ensures tables { (root : List ℕ) (model : Metadata) → IsModel root model → length model.tables ≡ 38 }
    ensures long { (root : List ℕ) (model : Metadata) → IsModel root model → (table : Table) (row : ℕ)
        → 1 ≤ row → row ≤ rows_in (source_of root) table → length (row_of model table row) ≡ cell_count table }
    ensures rules { (root : List ℕ) (model : Metadata) → IsModel root model
        → AreByKey (source_of root) × AreLinked (links_in (source_of root)) }
{
    root::laws::roots_are_read();
    schema::laws::streams_are_read();
    schema::laws::numbers_are_read();
}

/// A number represents at most one cell.
pub fn cells_are_one()
    ensures { (source : Source) (table : Table) (row cell_index : ℕ) (cell other : Cell) → IsCell source table row cell_index cell
        → IsCell source table row cell_index other → cell ≡ other }
{
    heap_entries::laws::entries_are_one();
    sig_grammar::laws::signatures_are_read();
}

/// The model of a root is valid, so a model that is built from its parts is never refused.
pub fn models_of_roots_are_valid()
    ensures { (root : List ℕ) (model : Metadata) → IsModel root model → IsValid model }
{
    schema::laws::cells_stand();
    sig_grammar::laws::encoded_is_encodable();
}

/// All rules for a model with 38 tables hold if and only if it is valid.
pub fn valid_models_are_not_refused()
    ensures met { (model : Metadata) → IsValid model → AllHold (refusals_of model) }
    ensures sound { (model : Metadata) → length model.tables ≡ 38 → AllHold (refusals_of model) → IsValid model }
{}

/// The key numbers of a table in a root are those in its model, so they are in order in both or in neither.
pub fn keys_are_in_order()
    ensures order { (root : List ℕ) (model : Metadata) → IsModel root model → (table : Table) (key : ℕ) → key_of table ≡ Some key
        → IsInOrder (source_of root) table key ↔ IsKeyOrdered model table }
    ensures numbers { (root : List ℕ) (model : Metadata) → IsModel root model → (table : Table) (cell row : ℕ) → IsKeyCell table cell
        → 1 ≤ row → row ≤ rows_in (source_of root) table
        → number_of (source_of root) table row (column_of table cell) ≡ key_in model table cell row }
{
    models_are_read();
}

/// Two rows have different numbers in a key column that can refer to both.
pub fn key_numbers_are_one()
    ensures { (table : Table) (cell : ℕ) → IsKeyCell table cell → (token : Token) → 1 ≤ token.row → IsOfKind (kind_at table cell) (Ref (Some token))
        → (key : Cell) → IsOfKind (kind_at table cell) key
        → (key ≡ Ref (Some token)) ↔ (key_number (kind_at table cell) key ≡ row_number (kind_at table cell) token) }
{}

/// The number of a coded index is the one by which its column refers to the row that the index names (II.24.2.6).
pub fn coded_indexes_are_row_numbers()
    ensures { (coded : TheCoded) (number : ℕ) (token : Token) → IsCoded coded number token.table token.row
        → number ≡ row_number (Coded coded) token }
{}

/// Two models with the same parts are equal.
#[tactic(auto, using(crate::proofs::SameLemmas::models_one))]
pub fn models_of_same_parts_are_one()
    ensures { (model other : Metadata) → SaysSame model other → model ≡ other }
{}
