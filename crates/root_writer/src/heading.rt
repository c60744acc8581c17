ghost use Rattle.std.specs.Prelude.{◌≡◌, ◌+◌, ◌^◌, ◌<◌, ◌≤◌, ℕ, List, length, sum_by};
ghost use Rattle.root.specs.declared.kind.Kind.{Kind as TheKind};
ghost use Rattle.root_writer.specs.Canonical.{ended, prefix};
ghost use Rattle.root_writer.specs.Heading.{header_length, size_of, sized_header, sized_directory, heading, heading_size};
ghost use Rattle.root_writer.specs.Written.{Puts};

use crate::sizes::StreamSizes;
use crate::writer::Writer;
use root::Kind;

/// The largest number of bytes in a version string.
const VERSION_LIMIT: usize = 254;

/// The length of a text of this many bytes with its terminating NUL, padded to a multiple of four.
fn ended_len(len: usize) -> usize
    requires { len ≤ VERSION_LIMIT }
    ensures len { (text : List ℕ) → length text ≡ len → length (ended text) ≡ result }
    ensures limit { result ≤ 256 }
{
    len - len % 4 + 4
}

/// The length of a stream's header in bytes.
#[tactic(auto, using(crate::proofs::HeadingLemmas::name_short, crate::proofs::HeadingLemmas::header_is_long))]
fn header_len(kind: Kind) -> usize
    ensures len { result ≡ header_length kind }
    ensures limit { result ≤ 264 }
{
    8 + ended_len(kind.name().len())
}

/// The number of bytes before the first stream of a root with this version and these streams. It depends neither on the
/// offsets nor on the sizes of the streams.
pub fn heading_len(version: &str, kinds: &[Kind]) -> usize
    requires short { length version.now ≤ VERSION_LIMIT }
    requires few { length kinds.now ≤ 5 }
    ensures offset { (size : TheKind → ℕ) → result ≡ heading_size version.now size kinds.now }
    ensures len { (size : TheKind → ℕ) → result ≡ length (heading version.now size kinds.now) }
    ensures limit { result < 2 ^ 11 }
{
    let mut len = 20 + ended_len(version.len());
    for kind in kinds {
        len += header_len(*kind);
    }
    len
}

impl Writer {
    /// Writes the root header before the stream headers: the signature, the versions and the number of streams
    /// (II.24.2.1).
    fn put_prefix(&mut self, version: &str, streams: usize)
        requires short { length version.now ≤ VERSION_LIMIT }
        requires few { streams ≤ 5 }
        requires room { length (prefix version.now streams) ≤ self.old.room }
        ensures { Puts self.old self.new (prefix version.now streams) }
    {
        self.put(b"BSJB");
        self.put(&[1, 0, 1, 0, 0, 0, 0, 0]);
        self.put_number(4, ended_len(version.len()) as u32);
        self.put_ended(version);
        self.put(&[0, 0]);
        self.put_number(2, streams as u32);
    }

    /// Writes the header of a stream (II.24.2.2).
    fn put_stream_header(&mut self, sizes: &StreamSizes, offset: u32, kind: Kind)
        requires { length (sized_header (size_of sizes.now) offset kind) ≤ self.old.room }
        ensures { Puts self.old self.new (sized_header (size_of sizes.now) offset kind) }
    {
        self.put_number(4, offset);
        self.put_number(4, sizes.size(kind));
        self.put_ended(kind.name());
    }

    /// Writes the headers of these streams; the first stream begins at the given offset.
    fn put_directory(&mut self, sizes: &StreamSizes, first: u32, kinds: &[Kind])
        requires low { first + sum_by (size_of sizes.now) kinds.now < 2 ^ 32 }
        requires room { length (sized_directory (size_of sizes.now) first kinds.now) ≤ self.old.room }
        ensures { Puts self.old self.new (sized_directory (size_of sizes.now) first kinds.now) }
    {
        let mut offset = first;
        for kind in kinds {
            self.put_stream_header(sizes, offset, *kind);
            offset += sizes.size(*kind);
        }
    }

    /// Writes all headers before the first of these streams.
    pub fn put_heading(&mut self, version: &str, sizes: &StreamSizes, kinds: &[Kind])
        requires short { length version.now ≤ VERSION_LIMIT }
        requires few { length kinds.now ≤ 5 }
        requires low { heading_size version.now (size_of sizes.now) kinds.now + sum_by (size_of sizes.now) kinds.now < 2 ^ 32 }
        requires room { length (heading version.now (size_of sizes.now) kinds.now) ≤ self.old.room }
        ensures { Puts self.old self.new (heading version.now (size_of sizes.now) kinds.now) }
    {
        let first = heading_len(version, kinds);
        self.put_prefix(version, kinds.len());
        self.put_directory(sizes, first as u32, kinds);
    }
}
