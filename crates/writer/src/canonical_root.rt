ghost use Rattle.std.specs.Prelude.{◌≡◌, ◌^◌, ◌<◌, ◌≤◌, ◌↔◌, ⊤, Err, IfOk, IfErr, length};
ghost use Rattle.metadata.specs.Metadata.{Metadata};
ghost use Rattle.root_writer.specs.Canonical.{canonical};
ghost use Rattle.writer.specs.declared.error.WriteError.TheVariants as WriteError;
ghost use Rattle.writer.specs.Errors.{MatchError};

use crate::planned::plan_of;
use crate::{Prepared, WriteError, make};
use metadata_source::ReadCells;
use std::alloc::Global;

/// Makes the canonical root of a metadata, if it has at most `limit` bytes. A root that is open in place and the model
/// that is loaded from it have the same one.
///
/// No cell is copied. The memory of the root is allocated once, when its length is known, and each byte is written
/// once. During the call there are also the heaps, with each text, blob and GUID once. There is also a number of four
/// bytes for each column of each row, and what sorting the values of the heaps needs. The cost is that of reading each
/// cell, and of sorting these values. A blob that many rows name is read once for each kind of column.
///
/// # Errors
///
/// `TooLarge` if the canonical root is longer than the limit. `Memory` if memory runs out before that is known.
pub fn prepare<S: ReadCells>(alloc: Global, source: &S, limit: u32) -> Result<Prepared, WriteError>
    requires { limit ≤ 2 ^ 30 }
    ensures root { (model : Metadata) → S.shows source.now model → IfOk result (λ prepared. prepared ≡ canonical model) }
    ensures within { IfOk result (λ prepared. length prepared ≤ limit) }
    ensures refused { (model : Metadata) → S.shows source.now model
        → IfErr result (MatchError (limit < length (canonical model)) ⊤ (λ given. ⊥)) }
    // Unless out of memory, it is `TooLarge` if and only if the root is longer than the limit.
    ensures too_large { (model : Metadata) → S.shows source.now model → ¬ (result ≡ Err WriteError.Memory)
        → (result ≡ Err WriteError.TooLarge) ↔ (limit < length (canonical model)) }
{
    make_root(alloc, source, limit)
}

/// The canonical root, from its plan.
fn make_root<S: ReadCells>(alloc: Global, source: &S, limit: u32) -> Result<Prepared, WriteError>
    requires { limit ≤ 2 ^ 30 }
    ensures root { (model : Metadata) → S.shows source.now model → IfOk result (λ prepared. prepared ≡ canonical model) }
    ensures within { IfOk result (λ prepared. length prepared ≤ limit) }
    ensures refused { (model : Metadata) → S.shows source.now model
        → IfErr result (MatchError (limit < length (canonical model)) ⊤ (λ given. ⊥)) }
{
    source.holds_one();
    let plan = plan_of(alloc, source, limit)?;
    let prepared = make(alloc, &plan);
    drop(plan);
    Ok(prepared?)
}
