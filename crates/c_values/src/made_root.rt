ghost use Rattle.std.specs.Prelude.{◌≡◌, ◌^◌, ◌≤◌, ◌<◌, IfOk, IfErr, length};
ghost use Rattle.metadata.specs.Metadata.{Metadata};
ghost use Rattle.metadata.specs.Valid.{IsValid};
ghost use Rattle.root_writer.specs.Canonical.{canonical};
ghost use Rattle.c_values.specs.Given.{IsGiven};
ghost use Rattle.c_values.specs.Refused.{IsGivenValid, IsNoRoot, MatchNoRoot};

use crate::no_root::NoRoot;
use crate::read_rows::read_tables;
use crate::row::ClimRow;
use c_texts::ROOT_LIMIT;
use metadata::Refusal;
use owned_model::Model;
use packed::FaultCode;
use std::alloc::Global;
use std::str;
use writer::{Prepared, prepare};

/// The canonical root of metadata that is given as a version in UTF-8, user strings that are padded to a multiple of
/// four, and rows (II.22, II.24.2). The rows of a table are those with its number, in the order given.
///
/// The cost is linear in what is given, and that of making the root. Each row is added once.
///
/// # Errors
///
/// `Refused` if and only if no valid metadata is given, unless memory runs out before. It has the first that is wrong: the
/// version is not UTF-8; the first row that cannot be read; or the first rule that the tables break. `TooLong` if and only
/// if the root would have more than 2^30 bytes. `Memory` at any time.
pub fn root_of(
    alloc: Global,
    version: &[u8],
    user: &[u8],
    rows: &[ClimRow<'_>],
) -> Result<Prepared, NoRoot>
    ensures sound { IfOk result (λ root. IsGivenValid version.now user.now rows.now (λ model. root ≡ canonical model)) }
    ensures within { IfOk result (λ root. length root ≤ 2 ^ 30) }
    ensures complete { (model : Metadata) → IsGiven version.now user.now rows.now model → IfOk result (λ root. root ≡ canonical model) }
    ensures refused { IfErr result (IsNoRoot version.now user.now rows.now) }
    ensures accepted { (model : Metadata) → IsGiven version.now user.now rows.now model → IsValid model
        → IfErr result (MatchNoRoot (λ refusal. ⊥) (2 ^ 30 < length (canonical model))) }
{
    crate::laws::given_metadata_is_one();
    crate::laws::refused_metadata_is_not_valid();
    make_root(alloc, version, user, rows)
}

/// The canonical root of what is given, or the first reason why there is none.
fn make_root(
    alloc: Global,
    version: &[u8],
    user: &[u8],
    rows: &[ClimRow<'_>],
) -> Result<Prepared, NoRoot>
    ensures sound { IfOk result (λ root. IsGivenValid version.now user.now rows.now (λ model. root ≡ canonical model)) }
    ensures within { IfOk result (λ root. length root ≤ 2 ^ 30) }
    ensures refused { IfErr result (IsNoRoot version.now user.now rows.now) }
{
    let Ok(version) = str::from_utf8(version) else {
        return Err(NoRoot::Refused(Refusal::new(FaultCode::Version, 0, 0, 0)));
    };
    let tables = read_tables(alloc, version, user, rows)?;
    match Model::from_tables(tables) {
        Ok(model) => Ok(prepare(alloc, &model, ROOT_LIMIT)?),
        Err((refusal, _tables)) => Err(NoRoot::Refused(refusal)),
    }
}
