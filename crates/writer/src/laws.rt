ghost use Rattle.std.specs.Prelude.{◌^◌, ◌<◌, ◌≤◌, length};
ghost use Rattle.root.specs.declared.kind.Kind.{Kind as TheKind};
ghost use Rattle.heap_pools.specs.TextHeap.{text_heap};
ghost use Rattle.metadata.specs.Metadata.{Metadata};
ghost use Rattle.root_writer.specs.Pools.{pools_of};
ghost use Rattle.root_writer.specs.Canonical.{canonical, stream};
ghost use Rattle.root_writer.specs.Numbered.{IsTooLong};

/// A stream of a canonical root, with its padding, is not longer than the root. So if a heap of a model exceeds 2^30
/// bytes, its canonical root does too.
pub fn streams_are_within_roots()
    ensures stream { (model : Metadata) (kind : TheKind) → length (stream model kind) ≤ length (canonical model) }
    ensures texts { (model : Metadata) → 2 ^ 30 < length (text_heap (pools_of model).texts) → 2 ^ 30 < length (canonical model) }
    ensures pools { (model : Metadata) → IsTooLong model → 2 ^ 30 < length (canonical model) }
{
    root_writer::laws::canonical_roots_are_put();
}
