ghost use Rattle.std.specs.Prelude.{◌≡◌, ◌++◌, ℕ, length, flat_map};
ghost use Rattle.schema.specs.Sizes.{Sizes};
ghost use Rattle.root.specs.declared.kind.Kind.{Kind as TheKind};
ghost use Rattle.metadata.specs.Metadata.{Metadata};
ghost use Rattle.root_writer.specs.Canonical.{canonical, stream};
ghost use Rattle.root_writer.specs.TableStream.{sizes_of, header_bytes};
ghost use Rattle.root_writer.specs.Heading.{heading, held};
ghost use Rattle.root_writer.specs.TableHeader.{table_header};
ghost use Rattle.root_writer.specs.declared.root_parts.RootParts.{RootParts as TheParts};
ghost use Rattle.root_writer.specs.Root.{root_bytes, ArePartsOf};

pub use crate::canonical_laws::{
    canonical_root_has_its_model, canonical_root_is_one, sorted_bits_report_order,
};
pub use crate::numbering_laws::{cells_can_be_numbered, numbers_are_put};

/// The canonical root is what [`Writer::put_heading`](crate::Writer::put_heading) writes for the sizes of its streams,
/// followed by the streams that have bytes.
pub fn canonical_roots_are_put()
    ensures { (model : Metadata) (size : TheKind → ℕ) → ((kind : TheKind) → size kind ≡ length (stream model kind))
        → canonical model ≡ heading model.version size (held size) ++ flat_map (stream model) (held size) }
{}

/// The header of a model's table stream is what [`Writer::put_table_header`](crate::Writer::put_table_header) writes
/// for its row counts.
pub fn table_headers_are_put()
    ensures { (model : Metadata) (sizes : Sizes) → sizes.counts ≡ (sizes_of model).counts
        → header_bytes model ≡ table_header (sizes_of model).heap_sizes (sizes_of model).sorted sizes }
{}

/// [`Writer::put_root`](crate::Writer::put_root) writes the canonical root of a model if it is given the parts of that
/// model.
pub fn parts_are_canonical()
    ensures { (model : Metadata) (parts : TheParts) → ArePartsOf model parts → root_bytes parts ≡ canonical model }
{
    canonical_roots_are_put();
}
