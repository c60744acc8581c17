ghost use Rattle.std.specs.Prelude.{◌≡◌, ◌+◌, ◌^◌, ◌<◌, ◌≤◌, ⊤, length, take, IfOk, IfErr, OnOk};
ghost use Rattle.std.specs.Io.KnownBytes.{Appends};
ghost use Rattle.metadata.specs.Metadata.{Metadata};
ghost use Rattle.metadata.specs.Model.{IsModel};
ghost use Rattle.root_writer.specs.Canonical.{canonical};
ghost use Rattle.writer.specs.Errors.{MatchError};

use crate::canonical_root::prepare;
use crate::{Sink, WriteError};
use metadata_source::ReadCells;
use std::alloc::Global;

/// The largest length of a root in bytes.
const ROOT_LIMIT: u32 = 1 << 30;

/// The canonical root of a metadata, if it has at most `limit` bytes.
///
/// # Errors
///
/// `TooLarge` if the canonical root is longer than the limit, or `Memory` if out of memory.
pub fn write_root_within<S: ReadCells>(
    alloc: Global,
    source: &S,
    limit: u32,
) -> Result<Vec<u8>, WriteError>
    requires { limit ≤ 2 ^ 30 }
    ensures root { (model : Metadata) → S.shows source.now model → IfOk result (λ root. root.items ≡ canonical model) }
    ensures within { IfOk result (λ root. length root.items ≤ limit) }
    ensures refused { (model : Metadata) → S.shows source.now model
        → IfErr result (MatchError (limit < length (canonical model)) ⊤ (λ given. ⊥)) }
    // The root has this model, and no other.
    ensures model { (model : Metadata) → S.shows source.now model → IfOk result (λ root. IsModel root.items model) }
    ensures unique { (model : Metadata) → S.shows source.now model
        → IfOk result (λ root. (other : Metadata) → IsModel root.items other → other ≡ model) }
{
    root_writer::laws::canonical_root_has_its_model();
    root_writer::laws::canonical_root_is_one();
    source.holds_one();
    let prepared = prepare(alloc, source, limit)?;
    Ok(prepared.into_bytes())
}

/// The canonical root of a metadata.
///
/// # Errors
///
/// `TooLarge` if the canonical root has more than 2^30 bytes, or `Memory` if out of memory.
pub fn write_root<S: ReadCells>(alloc: Global, source: &S) -> Result<Vec<u8>, WriteError>
    ensures root { (model : Metadata) → S.shows source.now model → IfOk result (λ root. root.items ≡ canonical model) }
    ensures within { IfOk result (λ root. length root.items ≤ 2 ^ 30) }
    ensures refused { (model : Metadata) → S.shows source.now model
        → IfErr result (MatchError (2 ^ 30 < length (canonical model)) ⊤ (λ given. ⊥)) }
    // The root has this model, and no other.
    ensures model { (model : Metadata) → S.shows source.now model → IfOk result (λ root. IsModel root.items model) }
    ensures unique { (model : Metadata) → S.shows source.now model
        → IfOk result (λ root. (other : Metadata) → IsModel root.items other → other ≡ model) }
{
    write_root_within(alloc, source, ROOT_LIMIT)
}

/// Sends the canonical root of a metadata. All memory is allocated before the first byte is sent.
///
/// # Errors
///
/// `TooLarge` if the canonical root has more than 2^30 bytes, `Memory` if out of memory; then no byte was sent.
/// `Device` if the sink failed, which ends the call.
pub fn write_root_to<S: ReadCells, W: Sink>(
    alloc: Global,
    source: &S,
    sink: &mut W,
) -> Result<(), WriteError>
    requires few { W.failed sink.old < 2 ^ 63 }
    // The whole root was sent, and nothing else. No call failed.
    ensures all { (model : Metadata) → S.shows source.now model
        → OnOk result (Appends (W.given sink.old) (W.given sink.new) (canonical model)) }
    ensures unfailed { OnOk result (W.failed sink.new ≡ W.failed sink.old) }
    ensures within { (model : Metadata) → S.shows source.now model → OnOk result (length (canonical model) ≤ 2 ^ 30) }
    // The sink is unchanged; or exactly the first `given` bytes were sent, and not all, and one call failed.
    ensures refused { (model : Metadata) → S.shows source.now model → IfErr result (MatchError
        ((2 ^ 30 < length (canonical model)) × (sink.new ≡ sink.old))
        (sink.new ≡ sink.old)
        (λ given. Appends (W.given sink.old) (W.given sink.new) (take given (canonical model))
        × (given < length (canonical model)) × (W.failed sink.new ≡ W.failed sink.old + 1)
        × (length (canonical model) ≤ 2 ^ 30))) }
{
    let prepared = prepare(alloc, source, ROOT_LIMIT)?;
    prepared.send(sink)
}
