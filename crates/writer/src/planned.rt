ghost use Rattle.std.specs.Prelude.{◌≡◌, ◌^◌, ◌<◌, ◌≤◌, Err, OnOk, IfOk, length};
ghost use Rattle.metadata.specs.Metadata.{Metadata};
ghost use Rattle.root_writer.specs.Canonical.{canonical};
ghost use Rattle.writer.specs.declared.plan_error.PlanError.TheVariants.{TooLarge};
ghost use Rattle.writer.specs.Planned.{ArePooled, IsRootPlan};

use crate::outline::outline_of;
use crate::{PlanError, RootPlan};
use cell_numbering::pools_of;
use heap_pools::TextPool;
use metadata_source::ReadCells;
use root_writer::Numbering;
use std::alloc::Global;

/// The pools and numbers of a metadata. `TooLarge` if a heap would exceed 2^30 bytes.
fn pools<S: ReadCells>(alloc: Global, source: &S) -> Result<(TextPool, Numbering), PlanError>
    ensures pools { (model : Metadata) → S.shows source.now model → IfOk result (λ pools. ArePooled model pools.0 pools.1) }
    ensures too_large { (model : Metadata) → S.shows source.now model → result ≡ Err PlanError.TooLarge → 2 ^ 30 < length (canonical model) }
{
    crate::laws::streams_are_within_roots();
    Ok(pools_of(alloc, source)?)
}

/// The plan of the canonical root of a metadata, if that root has at most `limit` bytes. No cell is copied. It
/// allocates the pools and one number per column of each row.
pub fn plan_of<S: ReadCells>(
    alloc: Global,
    source: &S,
    limit: u32,
) -> Result<RootPlan<'_>, PlanError>
    requires { limit ≤ 2 ^ 30 }
    ensures plan { (model : Metadata) → S.shows source.now model → IfOk result (λ plan. IsRootPlan model plan) }
    ensures fits { (model : Metadata) → S.shows source.now model → OnOk result (length (canonical model) ≤ limit) }
    ensures too_large { (model : Metadata) → S.shows source.now model → result ≡ Err PlanError.TooLarge → limit < length (canonical model) }
{
    let (texts, numbering) = pools(alloc, source)?;
    RootPlan::of(&outline_of(source), texts, numbering, limit)
}
