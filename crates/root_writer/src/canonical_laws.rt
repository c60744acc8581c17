ghost use Rattle.std.specs.Prelude.{◌≡◌, ◌^◌, ◌≤◌, ◌↔◌, ℕ, true, Some, List, length};
ghost use Rattle.metadata.specs.Metadata.{Metadata};
ghost use Rattle.metadata.specs.Model.{IsModel};
ghost use Rattle.metadata.specs.Valid.{IsValid};
ghost use Rattle.metadata.specs.KeyOrder.{IsKeyOrdered};
ghost use Rattle.table_schema.specs.declared.table.TableId.{TableId as Table};
ghost use Rattle.table_schema.specs.Columns.{key_of};
ghost use Rattle.root_writer.specs.TableStream.{is_sorted};
ghost use Rattle.root_writer.specs.Canonical.{canonical};

/// The canonical root of a valid model has this model, and reports which tables are in order of their keys.
fn valid_models_are_encoded()
    ensures model { (model : Metadata) → IsValid model → length (canonical model) ≤ 2 ^ 30 → IsModel (canonical model) model }
    ensures order { (model : Metadata) → IsValid model → (table : Table) (key : ℕ) → key_of table ≡ Some key
        → (is_sorted model table ≡ true) ↔ IsKeyOrdered model table }
{
    schema::laws::numbers_are_encoded();
    sig_grammar::laws::shortest_encodes();
}

/// The canonical root of a valid model has this model, if the root has at most 2^30 bytes.
///
/// A longer root has no model.
pub fn canonical_root_has_its_model()
    ensures { (model : Metadata) → IsValid model → length (canonical model) ≤ 2 ^ 30 → IsModel (canonical model) model }
{
    valid_models_are_encoded();
}

/// A valid model is the only model of its canonical root: every model of that root equals it. Two valid models with the
/// same canonical root are equal.
pub fn canonical_root_is_one()
    ensures unique { (model other : Metadata) → IsValid model → length (canonical model) ≤ 2 ^ 30 → IsModel (canonical model) other → model ≡ other }
    ensures apart { (model other : Metadata) → IsValid model → IsValid other → length (canonical model) ≤ 2 ^ 30
        → length (canonical other) ≤ 2 ^ 30 → canonical model ≡ canonical other → model ≡ other }
{
    canonical_root_has_its_model();
    metadata::laws::roots_have_models();
}

/// The Sorted bit of a keyed table of a valid model is set if and only if the table's keys are in order.
pub fn sorted_bits_report_order()
    ensures { (model : Metadata) → IsValid model → (table : Table) (key : ℕ) → key_of table ≡ Some key
        → (is_sorted model table ≡ true) ↔ IsKeyOrdered model table }
{
    valid_models_are_encoded();
}
