ghost use Rattle.std.specs.Prelude.{◌≡◌, ◌+◌, ◌^◌, ◌<◌, ◌≤◌, ℕ, List, length, sum_by};
ghost use Rattle.root.specs.declared.kind.Kind.{Kind as TheKind};
ghost use Rattle.heap_entries.specs.Padding.{zero_padded};
ghost use Rattle.metadata.specs.Metadata.{Metadata};
ghost use Rattle.root_writer.specs.Canonical.{canonical, stream};
ghost use Rattle.root_writer.specs.Heading.{size_of, held, heading_size};

use packed::BYTE_LIMIT;
use root_writer::{HeldKinds, StreamSizes, heading_len};

/// The largest length of a stream, and of a root, in bytes.
const STREAM_LIMIT: usize = BYTE_LIMIT;

/// The length of a stream with this many bytes, padded to a multiple of four (II.24.2.2).
pub fn padded_len(len: usize) -> u32
    requires { len ≤ STREAM_LIMIT }
    ensures value { (bytes : List ℕ) → length bytes ≡ len → result ≡ length (zero_padded bytes) }
    ensures limit { result ≤ STREAM_LIMIT }
{
    (len + (4 - len % 4) % 4) as u32
}

/// The length in bytes of a root with this version, whose streams have these sizes.
pub fn root_len(version: &str, sizes: &StreamSizes) -> usize
    requires short { length version.now ≤ 254 }
    requires low { (kind : TheKind) → size_of sizes.now kind ≤ STREAM_LIMIT }
    ensures parts { result ≡ heading_size version.now (size_of sizes.now) (held (size_of sizes.now)) + sum_by (size_of sizes.now) (held (size_of sizes.now)) }
    ensures len { (model : Metadata) → model.version ≡ version.now → ((kind : TheKind) → size_of sizes.now kind ≡ length (stream model kind))
        → result ≡ length (canonical model) }
    ensures limit { result < 2 ^ 33 }
{
    root_writer::laws::canonical_roots_are_put();
    let kinds = HeldKinds::new(sizes);
    let mut len = heading_len(version, kinds.as_slice());
    len += sizes.tables as usize;
    len += sizes.strings as usize;
    len += sizes.user_strings as usize;
    len += sizes.guids as usize;
    len += sizes.blobs as usize;
    len
}
