ghost use Rattle.std.specs.Prelude.{◌≡◌, ◌↔◌, IsOk, length};
ghost use Rattle.packed.specs.Rule.{Reports};
ghost use Rattle.metadata.specs.Valid.{IsValid};
ghost use Rattle.metadata.specs.Refusals.{refusals_of};

use crate::Tables;
use crate::cell_checks::check_cells;
use crate::counted::Counted;
use crate::heads::{is_user, is_version};
use crate::links::check_links;
use crate::signature_checks::check_signatures;
use metadata::Refusal;
use packed::FaultCode;

/// Checks the rules for tables, in their order (II.22 and II.24.2). It does not allocate.
///
/// # Errors
///
/// The first rule that they break, with its code and its cell. There is an error if and only if the tables are not a
/// valid model.
pub fn check_tables(tables: &Tables) -> Result<(), Refusal>
    ensures reports { Reports (refusals_of tables.now) result }
    ensures valid { IsOk result ↔ IsValid tables.now }
{
    metadata::laws::valid_models_are_not_refused();
    check_rules(tables)
}

/// Checks the rules, from the first to the last.
#[tactic(auto, using(packed::proofs::RuleLemmas::fails_prefix, packed::proofs::RuleLemmas::fails_back, packed::proofs::RuleLemmas::all_append), unfolding(metadata::specs::Refusals::refusals_of))]
fn check_rules(tables: &Tables) -> Result<(), Refusal>
    ensures reports { Reports (refusals_of tables.now) result }
    ensures tables { length tables.now.tables ≡ 38 }
{
    if !is_version(tables.version()) {
        return Err(Refusal::new(FaultCode::Version, 0, 0, 0));
    }
    if !is_user(tables.user()) {
        return Err(Refusal::new(FaultCode::UserBytes, 0, 0, 0));
    }
    let counted = Counted::new(tables)?;
    check_cells(&counted)?;
    check_links(&counted)?;
    check_signatures(&counted)
}
