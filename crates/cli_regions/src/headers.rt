//! Looks at the headers and the streams of a metadata root, and at the fields and row counts of its table stream.
ghost use Rattle.std.specs.Prelude.{◌≡◌, ◌≤◌, All, flat_map, length};
ghost use Rattle.packed.specs.Rule.{AllHold};
ghost use Rattle.root.specs.Fields.{root_read};
ghost use Rattle.root.specs.Rules.{rules_of_root};
ghost use Rattle.root.specs.Views.{view};
ghost use Rattle.cli_regions.specs.Headers.{count_size, is_standard, root_regions, stream_regions, streams, table_stream_regions};
ghost use Rattle.cli_regions.specs.Kept.{Adds, stream_part_regions};

use crate::fields::{
    AFTER_VERSION, BEFORE_NAME, BEFORE_VERSION, TABLE_STREAM, find_fields, find_header,
};
use crate::searches::{Name, Part, Search};
use packed::{u32_at, u64_at};
use root::{Headers, Kind, Root, StreamHeader};
use table_schema::TableId;

/// The offset of Length in a metadata root (II.24.2.1).
const VERSION_SIZE: usize = 12;

/// The offset of Version in a metadata root.
const VERSION: u64 = 16;

/// The offset of the name in a stream header (II.24.2.2).
const STREAM_NAME: u64 = 8;

/// The offset of Valid in a table stream (II.24.2.6).
const VALID: usize = 8;

/// The offset of the row counts in a table stream.
const ROW_COUNTS: u64 = 24;

/// The number of bytes of a row count.
const ROW_COUNT_SIZE: u64 = 4;

/// The streams of the standard, in the order of the lines: heaps, and then the tables.
const STREAMS: [Kind; 5] = [
    Kind::Strings,
    Kind::UserStrings,
    Kind::Guids,
    Kind::Blobs,
    Kind::Tables,
];

/// Whether the standard defines a stream of this name (II.24.2.2).
fn is_standard(name: &str) -> bool
    ensures { result ≡ is_standard name.now }
{
    STREAMS.iter().any(|kind| name == kind.name())
}

/// Looks at a part of a stream: its header with the fields, or its bytes that are within the root, of `size` bytes, if its name is
/// not one of the standard.
#[tactic(auto, unfolding(crate::specs::Headers::other_stream_regions, crate::specs::Headers::stream_header_regions))]
fn find_stream_part<'a>(
    header: &StreamHeader<'a>,
    part: Part,
    start: u64,
    size: u64,
    found: &mut Search<'a>,
)
    requires start { start ≤ 0x40000000 }
    requires small { header.now.place ≤ 0x40000000 }
    ensures { Adds found.old found.new (stream_part_regions part start size (view header.now)) }
{
    let name = Name::Text(header.name);
    match part {
        Part::Header => {
            let word = "stream header";
            let start = start + header.place as u64;
            let name_size = ((header.name.len() + 4) / 4 * 4) as u64;
            let size = STREAM_NAME + name_size;
            find_header(word, name, start, size, &BEFORE_NAME, found);
            found.look(start + STREAM_NAME, name_size, word, Name::Plain("Name"));
        }
        Part::Bytes => {
            if is_standard(header.name) {
                return;
            }
            let start = start + u64::from(header.offset);
            let left = size.saturating_sub(u64::from(header.offset));
            let count = u64::from(header.size).min(left);
            found.look(start, count, "stream", name);
        }
    }
}

/// Looks at a part of each stream of a root of `size` bytes.
fn find_stream_parts<'a>(of: Headers<'a>, part: Part, start: u64, size: u64, found: &mut Search<'a>)
    requires start { start ≤ 0x40000000 }
    requires small { All (λ header. header.place ≤ 0x40000000) of }
    ensures { Adds found.old found.new (flat_map (stream_part_regions part start size) of.entry) }
{
    for header in of {
        find_stream_part(&header, part, start, size, found);
    }
}

/// Looks at a stream.
fn find_stream(root: &Root<'_>, kind: Kind, start: u64, found: &mut Search<'_>)
    requires start { start ≤ 0x40000000 }
    requires small { length root.now.bytes ≤ 0x40000000 }
    ensures { Adds found.old found.new (stream_regions start root.now kind) }
{
    if let Some(range) = root.stream_place(kind) {
        let size = (range.end - range.start) as u64;
        let start = start + range.start as u64;
        found.look(start, size, "stream", Name::Plain(kind.name()));
    }
}

/// Looks at the streams of the standard.
fn find_streams(root: &Root<'_>, start: u64, found: &mut Search<'_>)
    requires start { start ≤ 0x40000000 }
    requires small { length root.now.bytes ≤ 0x40000000 }
    ensures { Adds found.old found.new (flat_map (stream_regions start root.now) streams) }
{
    find_stream(root, Kind::Strings, start, found);
    find_stream(root, Kind::UserStrings, start, found);
    find_stream(root, Kind::Guids, start, found);
    find_stream(root, Kind::Blobs, start, found);
    find_stream(root, Kind::Tables, start, found);
}

/// Looks at a metadata root, its fields, its stream headers and its streams. `root` is at offset `start` of the file, and
/// `directory` was read from it.
pub fn find_root<'a>(root: &[u8], directory: &Root<'a>, start: u64, found: &mut Search<'a>)
    requires start { start ≤ 0x40000000 }
    requires rules { AllHold (rules_of_root root.now) }
    requires directory { directory.now ≡ root_read root.now }
    ensures { Adds found.old found.new (root_regions start root.now) }
{
    root::laws::roots_are_read();
    let word = "root header";
    let version = start + VERSION;
    let version_size = u32_at(root, VERSION_SIZE) as u64;
    let size = root.len() as u64;
    found.look(start, size, "root", Name::Empty);
    find_fields(word, start, &BEFORE_VERSION, found);
    found.look(version, version_size, word, Name::Plain("Version"));
    find_fields(word, version + version_size, &AFTER_VERSION, found);
    find_stream_parts(directory.headers(), Part::Header, start, size, found);
    find_stream_parts(directory.headers(), Part::Bytes, start, size, found);
    find_streams(directory, start, found);
}

/// The number of bytes of the row count of a table: none if its bit is not set.
fn count_size(bits: u64, table: TableId) -> u64
    ensures value { result ≡ count_size bits table }
    ensures few { result ≤ 4 }
{
    if bits >> table.number() & 1 == 1 {
        ROW_COUNT_SIZE
    } else {
        0
    }
}

/// Looks at the fields and row counts of a table stream.
pub fn find_table_stream(stream: &[u8], start: u64, found: &mut Search<'_>)
    requires start { start ≤ 0x80000000 }
    requires room { 24 ≤ length stream.now }
    ensures { Adds found.old found.new (table_stream_regions start stream.now) }
{
    find_fields("table stream", start, &TABLE_STREAM, found);
    let valid = u64_at(stream, VALID);
    let tables = TableId::all();
    let mut next = start + ROW_COUNTS;
    for table in tables {
        let size = count_size(valid, *table);
        found.look_field(next, size, "row count", Name::Table(*table));
        next += size;
    }
}
