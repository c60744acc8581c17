ghost use Rattle.std.specs.Prelude.{◌≡◌, ◌+◌, ◌^◌, ◌<◌, ◌≤◌, OnOk, IfOk, IfErr, IfSome, IfNone, length, sum_by};
ghost use Rattle.root.specs.declared.kind.Kind.{Kind as TheKind};
ghost use Rattle.metadata.specs.Metadata.{Metadata};
ghost use Rattle.root_writer.specs.Canonical.{canonical, stream};
ghost use Rattle.root_writer.specs.Heading.{size_of, held, heading_size};
ghost use Rattle.writer.specs.declared.plan_error.PlanError.TheVariants.{TooLarge};
ghost use Rattle.writer.specs.Outlined.{Describes};
ghost use Rattle.writer.specs.Planned.{AreHeapLens, ArePooled, IsRootPlan, IsTablesPlan};

use crate::heap_lens::HeapLens;
use crate::laws;
use crate::plan_error::PlanError;
use crate::root_outline::Outline;
use crate::stream_lens::{padded_len, root_len};
use crate::tables_plan::TablesPlan;
use heap_pools::TextPool;
use root_writer::{Numbering, StreamSizes};

/// The plan of the canonical root of a model, made before a byte of it is written.
#[derive(Drop)]
pub struct RootPlan<'a> {
    /// The version string.
    pub version: &'a str,
    /// The `#US` heap, with or without padding.
    pub user_strings: &'a [u8],
    /// The `#Strings` heap.
    pub texts: TextPool,
    /// The number of each cell, and the `#Blob` and `#GUID` heaps.
    pub numbering: Numbering,
    /// The table stream.
    pub tables: TablesPlan,
    /// The size of each stream in bytes, padded to a multiple of four.
    pub sizes: StreamSizes,
    /// The length of the root in bytes, at most 2^30.
    pub len: u32,
}

/// The length of each stream in a root with these heaps and tables, and the length of the root. `None` if the root
/// exceeds the limit.
fn lens_of(
    outline: &Outline,
    heaps: &HeapLens,
    tables: &TablesPlan,
    limit: u32,
) -> Option<(StreamSizes, u32)>
    requires limit { limit ≤ 2 ^ 30 }
    requires few { (heaps.now.strings ≤ 2 ^ 30) × (heaps.now.guids ≤ 2 ^ 30) × (heaps.now.blobs ≤ 2 ^ 30) }
    ensures sizes { (model : Metadata) → Describes outline.now model → AreHeapLens model heaps.now → IsTablesPlan model tables.now
        → IfSome result (λ lens. (kind : TheKind) → size_of lens.0 kind ≡ length (stream model kind)) }
    ensures len { (model : Metadata) → Describes outline.now model → AreHeapLens model heaps.now → IsTablesPlan model tables.now
        → IfSome result (λ lens. lens.1 ≡ length (canonical model)) }
    ensures parts { IfSome result (λ lens. lens.1 ≡ heading_size outline.now.version.now (size_of lens.0) (held (size_of lens.0))
        + sum_by (size_of lens.0) (held (size_of lens.0))) }
    ensures fits { IfSome result (λ lens. lens.1 ≤ limit) }
    ensures too_large { (model : Metadata) → Describes outline.now model → AreHeapLens model heaps.now → IsTablesPlan model tables.now
        → IfNone result (limit < length (canonical model)) }
{
    laws::streams_are_within_roots();
    if tables.len > limit as usize {
        return None;
    }
    let sizes = StreamSizes {
        tables: padded_len(tables.len),
        strings: heaps.strings,
        user_strings: padded_len(outline.user_strings.len()),
        guids: heaps.guids,
        blobs: heaps.blobs,
    };
    let len = root_len(outline.version, &sizes);
    if len > limit as usize {
        return None;
    }
    Some((sizes, len as u32))
}

impl<'a> RootPlan<'a> {
    /// The plan of the canonical root of the outline, with these pools and numbers, if the root has at most `limit`
    /// bytes. It does not allocate.
    ///
    /// # Errors
    ///
    /// `TooLarge` if the canonical root is longer than the limit.
    pub fn of(
        outline: &Outline<'a>,
        texts: TextPool,
        numbering: Numbering,
        limit: u32,
    ) -> Result<RootPlan<'a>, PlanError>
        requires { limit ≤ 2 ^ 30 }
        ensures plan { (model : Metadata) → Describes outline.now model → ArePooled model texts numbering → IfOk result (λ plan. IsRootPlan model plan) }
        ensures fits { (model : Metadata) → Describes outline.now model → ArePooled model texts numbering → OnOk result (length (canonical model) ≤ limit) }
        ensures too_large { (model : Metadata) → Describes outline.now model → ArePooled model texts numbering
            → IfErr result (λ error. (error ≡ PlanError.TooLarge) × (limit < length (canonical model))) }
    {
        let heaps = HeapLens::of(&texts, &numbering);
        let tables = TablesPlan::of(outline, heaps.heap_sizes());
        let Some((sizes, len)) = lens_of(outline, &heaps, &tables, limit) else {
            drop(texts);
            drop(numbering);
            return Err(PlanError::TooLarge);
        };
        Ok(RootPlan {
            version: outline.version,
            user_strings: outline.user_strings,
            texts,
            numbering,
            tables,
            sizes,
            len,
        })
    }
}
