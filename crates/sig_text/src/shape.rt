ghost use Rattle.std.specs.Prelude.{◌≡◌, ◌==◌, ◌&&◌, [], pos, ◌+ℤ◌, ◌-ℤ◌};
ghost use Rattle.sig_text.specs.Shown.{number_or, signed_or, numbers_behind, next_of, dimensions_shown, shape_shown};
ghost use Rattle.sig_text.specs.SignatureText.{dimension_text, rank_text, written_dimensions as dimensions_to_write};
ghost use Rattle.sig_text.specs.Wrote.{Wrote, Passes};

use crate::head::{number, signed};
use crate::sink::TextSink;
use crate::words::{put_if, put_number, put_signed, put_text};

/// The greatest rank of which each dimension is written.
const FULL_RANK: u32 = 32;

/// The bytes after `count` numbers.
fn behind_numbers(bytes: &[u8], count: u32) -> &[u8]
    ensures { result.now ≡ numbers_behind count bytes.now }
{
    let mut tail = bytes;
    for done in 0..count {
        (_, tail) = number(tail);
    }
    tail
}

/// The next of `left` sizes at the start, the number of sizes after it, and the remaining bytes.
#[tactic(auto, using(crate::proofs::ShapeShown::next_none))]
fn next_size(left: u32, bytes: &[u8]) -> (Option<u32>, u32, &[u8])
    ensures { (result.0, (result.1, result.2.now)) ≡ next_of number_or (left, bytes.now) }
{
    if left == 0 {
        return (None, 0, bytes);
    }
    let (size, tail) = number(bytes);
    (Some(size), left - 1, tail)
}

/// The next of `left` lower bounds at the start, the number of lower bounds after it, and the remaining bytes.
#[tactic(auto, using(crate::proofs::ShapeShown::next_none))]
fn next_low(left: u32, bytes: &[u8]) -> (Option<i32>, u32, &[u8])
    ensures { (result.0, (result.1, result.2.now)) ≡ next_of signed_or (left, bytes.now) }
{
    if left == 0 {
        return (None, 0, bytes);
    }
    let (low, tail) = signed(bytes);
    (Some(low), left - 1, tail)
}

/// The upper bound of a dimension, from its lower bound and its size (II.14.2).
#[tactic(auto, using(std::proofs::lemmas::Int::ints))]
fn upper_bound(low: i32, size: u32) -> i64
    ensures { result ≡ ((low +ℤ pos size) -ℤ pos 1) }
{
    i64::from(low) + i64::from(size) - 1
}

/// Writes a dimension (II.14.2): its lower bound and its size, if they are given.
fn dimension<S: TextSink>(sink: &mut S, taken: &mut bool, low: Option<i32>, size: Option<u32>)
    ensures { Wrote S.refused S.gives sink.old taken.old (dimension_text low size) sink.new taken.new }
{
    match (low, size) {
        (None, None) => {}
        (None, Some(size)) => put_number(sink, taken, size),
        (Some(low), None) => {
            put_signed(sink, taken, i64::from(low));
            put_text(sink, taken, "...");
        }
        (Some(low), Some(size)) => {
            put_signed(sink, taken, i64::from(low));
            put_text(sink, taken, "...");
            put_signed(sink, taken, upper_bound(low, size));
        }
    }
}

/// The number of dimensions that are written one by one, from the rank and the numbers of sizes and of lower bounds.
fn written_dimensions(rank: u32, sizes: u32, low: u32) -> u32
    ensures { result ≡ dimensions_to_write rank sizes low }
{
    if rank <= FULL_RANK {
        return rank;
    }
    sizes.max(low)
}

/// Writes the first `count` dimensions of a shape, and returns the bytes after their lower bounds. The sizes are at the
/// start of the first bytes, and the lower bounds at the start of the second.
fn dimensions<'a, S: TextSink>(
    sink: &mut S,
    taken: &mut bool,
    count: u32,
    size_count: u32,
    sizes: &[u8],
    low_count: u32,
    bounds: &'a [u8],
) -> &'a [u8]
    ensures { Passes S.refused S.gives sink.old taken.old (dimensions_shown [] count (size_count, sizes.now) (low_count, bounds.now)) sink.new taken.new result.now }
{
    let mut sizes_left = size_count;
    let mut size_bytes = sizes;
    let mut low_left = low_count;
    let mut low_bytes = bounds;
    for done in 0..count {
        if !*taken {
            return low_bytes;
        }
        put_if(sink, taken, done > 0, ",");
        let (size, left, tail) = next_size(sizes_left, size_bytes);
        sizes_left = left;
        size_bytes = tail;
        let (low, left, tail) = next_low(low_left, low_bytes);
        low_left = left;
        low_bytes = tail;
        dimension(sink, taken, low, size);
    }
    low_bytes
}

/// Whether an array has a single dimension without bounds. It is marked, because a vector is written without a dimension.
fn is_unbounded(rank: u32, sizes: u32, low: u32) -> bool
    ensures { result ≡ (rank == 1 && sizes == 0 && low == 0) }
{
    rank == 1 && sizes == 0 && low == 0
}

/// Writes the rank, if not all dimensions were written.
fn unwritten<S: TextSink>(sink: &mut S, taken: &mut bool, rank: u32, written: u32)
    ensures { Wrote S.refused S.gives sink.old taken.old (rank_text rank written) sink.new taken.new }
{
    if written == rank {
        return;
    }
    put_text(sink, taken, ",... rank ");
    put_number(sink, taken, rank);
}

/// Writes the shape of an array (II.23.2.13), and returns the bytes after it.
pub fn shape<'a, S: TextSink>(sink: &mut S, taken: &mut bool, bytes: &'a [u8]) -> &'a [u8]
    ensures { Passes S.refused S.gives sink.old taken.old (shape_shown bytes.now) sink.new taken.new result.now }
{
    let (rank, tail) = number(bytes);
    let (size_count, sizes) = number(tail);
    let (low_count, low) = number(behind_numbers(sizes, size_count));
    let written = written_dimensions(rank, size_count, low_count);
    put_text(sink, taken, "[");
    put_if(
        sink,
        taken,
        is_unbounded(rank, size_count, low_count),
        "...",
    );
    let tail = dimensions(sink, taken, written, size_count, sizes, low_count, low);
    unwritten(sink, taken, rank, written);
    put_text(sink, taken, "]");
    tail
}
