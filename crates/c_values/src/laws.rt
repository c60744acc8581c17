ghost use Rattle.std.specs.Prelude.{◌≡◌, ℕ, List};
ghost use Rattle.metadata.specs.Metadata.{Metadata};
ghost use Rattle.metadata.specs.Valid.{IsValid};
ghost use Rattle.metadata.specs.declared.refusal.Refusal.{Refusal};
ghost use Rattle.c_values.specs.declared.row.ClimRow.{ClimRow};
ghost use Rattle.c_values.specs.Given.{IsGiven};
ghost use Rattle.c_values.specs.Refused.{IsRefused};

/// What is given is at most one metadata.
pub fn given_metadata_is_one()
    ensures { (version user : List ℕ) (rows : List ClimRow) (model other : Metadata)
        → IsGiven version user rows model → IsGiven version user rows other → model ≡ other }
{
    table_schema::laws::tables_stand();
    sig_grammar::laws::signatures_are_read();
    metadata::laws::models_of_same_parts_are_one();
}

/// If what is given is refused, it is not valid metadata.
pub fn refused_metadata_is_not_valid()
    ensures { (version user : List ℕ) (rows : List ClimRow) (refusal : Refusal) (model : Metadata)
        → IsRefused version user rows refusal → IsGiven version user rows model → ¬ IsValid model }
{
    given_metadata_is_one();
    table_schema::laws::tables_stand();
    metadata::laws::valid_models_are_not_refused();
}
