ghost use Rattle.std.specs.Prelude.{◌≡◌, ◌≢◌, ◌≤◌, ◌<◌, ◌+◌, ◌*◌, ◌/◌, ◌^◌, ◌↔◌, ℕ, IsTrue, IfOk, IfSome, drop, length, slice_index, take};
ghost use Rattle.checks.specs.TextBytes.{bytes_before_nul as before_nul, text_length};
ghost use Rattle.packed.specs.Rule.{Reports};
ghost use Rattle.heap_entries.specs.Rules.{at_offset, rules_of_text};
ghost use Rattle.checks.specs.Texts.{AreStarts, HasTextsTo, Reaches};

use heap_entries::{HeapFault, text};
use memchr::{memchr, memrchr};
use simdutf8::basic;
use std::marker::Model;

/// The number of parts of a heap.
const PARTS: usize = 1024;

/// The texts of a `#Strings` heap (II.24.2.3), and what is known of them.
///
/// In a heap of ASCII each index up to the last NUL has a text.
///
/// In a heap that is not UTF-8 as a whole it remembers, of each part, the start of a text that leaves the part. A later
/// text of the part is an ending of that one, or has it as its ending, so that less than a part is left to check. A text
/// costs its bytes in the part in which it begins, and each byte of the heap is read once more.
#[derive(Drop)]
pub struct Texts<'a> {
    heap: &'a [u8],
    /// An index up to which each index has a text.
    sure_end: usize,
    /// Of each part a start, or 0.
    starts: [u32; PARTS],
    /// The number of bytes of a part.
    part: usize,
}

impl<'a> Model for Texts<'a> {
    ghost use Rattle.std.specs.Prelude.{List, ℕ};

    ghost Value = { List ℕ };

    ghost use Rattle.checks.specs.Texts.{heap_of, AreKnown};

    ghost view = { heap_of };

    ghost invariant = { AreKnown };
}

impl<'a> Texts<'a> {
    /// The texts of a heap, of which none is known.
    pub fn new(heap: &'a [u8]) -> Texts<'a>
        ensures { result ≡ heap.now }
    {
        Texts {
            heap,
            sure_end: find_sure_end(heap),
            starts: [0; PARTS],
            part: heap.len() / PARTS + 1,
        }
    }

    /// An index up to which each index is known to have a text; 0 if no other index is known to have one.
    ///
    /// The texts are not read again, so this takes constant time.
    pub fn sure_end(&self) -> usize
        ensures { HasTextsTo self.now result }
    {
        self.sure_end
    }

    /// Checks that a text is at an index of the heap (II.24.2.3). It returns the number of its bytes in the part in which
    /// it begins.
    ///
    /// # Errors
    ///
    /// Those of [`heaps::text`].
    pub fn check(&mut self, index: u32) -> Result<usize, HeapFault>
        ensures heap { self.new ≡ self.old }
        ensures reports { (offset : ℕ) → Reports (rules_of_text self.old index offset) (at_offset offset result) }
        ensures bytes { IfOk result (λ bytes. bytes ≡ text_length self.old index) }
        ensures few { IfOk result (λ bytes. bytes < 2 ^ 60) }
    {
        let start = index as usize;
        if start == 0 {
            return Ok(0);
        }
        if start >= self.heap.len() {
            return Err(HeapFault::BadString);
        }
        let slot = start / self.part;
        let known = self.starts[slot];
        let room = self.part - start % self.part;
        if covers(known, index) {
            check_within(self.heap, index, known)?;
            return Ok(room);
        }
        let bytes = bytes_before_nul(self.heap, start, room);
        let reach = reach_of(self.heap, &self.starts, self.part, index, bytes)?;
        keep_text(&mut self.starts, self.heap, self.part, index, reach);
        Ok(bytes)
    }
}

/// An index up to which each index has a text: that of the last NUL in a heap of ASCII, else 0.
fn find_sure_end(heap: &[u8]) -> usize
    ensures { HasTextsTo heap.now result }
{
    if !heap.is_ascii() {
        return 0;
    }
    memrchr(0, heap).unwrap_or(0)
}

/// Whether a character may begin with a byte.
fn begins_character(byte: u8) -> bool
    ensures { IsTrue result ↔ (128 ≤ byte → 192 ≤ byte) }
{
    byte < 128 || byte >= 192
}

/// The number of bytes from a start up to a NUL, of at most `most`.
fn bytes_before_nul(heap: &[u8], start: usize, most: usize) -> usize
    requires { start ≤ length heap.now }
    ensures bytes { result ≡ before_nul (take most (drop start heap.now)) }
    ensures few { result ≤ most }
{
    let (_, tail) = heap.split_at(start);
    let (near, _) = tail.split_at(most.min(tail.len()));
    memchr(0, near).unwrap_or(near.len())
}

/// The first slot from one on with a start, or the number of parts.
fn next_known(starts: &[u32; PARTS], slot: usize) -> usize
    ensures first { slot ≤ result }
    ensures known { result < 1024 → slice_index starts.now result ≢ 0 }
{
    for next in slot..PARTS {
        if starts[next] != 0 {
            return next;
        }
    }
    slot.max(PARTS)
}

/// Whether a start is known and is not after an index.
fn covers(known: u32, index: u32) -> bool
    ensures { IsTrue result ↔ (known ≢ 0) × (known ≤ index) }
{
    known != 0 && known <= index
}

/// Whether a text is at an index within a text: it begins with a character.
fn check_within(heap: &[u8], index: u32, known: u32) -> Result<(), HeapFault>
    requires within { index < length heap.now }
    requires order { known ≤ index }
    requires first { 1 ≤ known }
    requires known { (end : ℕ) × (index < end) × Reaches heap.now known end }
    ensures reports { (offset : ℕ) → Reports (rules_of_text heap.now index offset) (at_offset offset result) }
{
    if begins_character(heap[index as usize]) {
        Ok(())
    } else {
        Err(HeapFault::BadUtf8)
    }
}

/// An end that the text of an index reaches, where the start that is known of its part, if there is one, is after it.
///
/// A text that ends in its part, of which it has `bytes`, is read. Of a longer one only the bytes before the next known
/// text are.
fn reach_of(
    heap: &[u8],
    starts: &[u32; PARTS],
    part: usize,
    index: u32,
    bytes: usize,
) -> Result<usize, HeapFault>
    requires first { 1 ≤ index }
    requires within { index < length heap.now }
    requires part { part ≡ length heap.now / 1024 + 1 }
    requires starts { AreStarts heap.now part starts.now }
    requires later { slice_index starts.now (index / part) ≢ 0 → index < slice_index starts.now (index / part) }
    ensures reaches { IfOk result (Reaches heap.now index) }
    ensures reports { (offset : ℕ) → Reports (rules_of_text heap.now index offset) (at_offset offset result) }
{
    let start = index as usize;
    if bytes < part - start % part {
        return end_of_text(heap, index);
    }
    let next = next_known(starts, start / part);
    if next < PARTS {
        return end_through(heap, index, starts[next], (next + 1) * part);
    }
    end_of_text(heap, index)
}

/// Where the text of an index ends.
fn end_of_text(heap: &[u8], index: u32) -> Result<usize, HeapFault>
    requires { 1 ≤ index }
    ensures reaches { IfOk result (Reaches heap.now index) }
    ensures reports { (offset : ℕ) → Reports (rules_of_text heap.now index offset) (at_offset offset result) }
{
    let text = text(heap, index)?;
    Ok(index as usize + text.len())
}

/// An end that the text of an index reaches, if a known text after it reaches one.
fn end_through(heap: &[u8], index: u32, known: u32, end: usize) -> Result<usize, HeapFault>
    requires first { 1 ≤ index }
    requires order { index ≤ known }
    requires known { Reaches heap.now known end }
    ensures reaches { IfOk result (Reaches heap.now index) }
    ensures reports { (offset : ℕ) → Reports (rules_of_text heap.now index offset) (at_offset offset result) }
{
    let (_, tail) = heap.split_at(index as usize);
    let (prefix, _) = tail.split_at((known - index) as usize);
    if memchr(0, prefix).is_some() {
        return end_of_text(heap, index);
    }
    match basic::from_utf8(prefix) {
        Ok(_) => Ok(end),
        Err(_) => Err(HeapFault::BadUtf8),
    }
}

/// The first offset from one up to an end at which a character may begin.
fn first_character(heap: &[u8], begin: usize, end: usize) -> Option<u32>
    requires { end ≤ length heap.now }
    ensures { IfSome result (λ offset. (begin ≤ offset) × (offset < end) × (128 ≤ slice_index heap.now offset → 192 ≤ slice_index heap.now offset)) }
{
    for offset in begin..end {
        if begins_character(heap[offset]) {
            return u32::try_from(offset).ok();
        }
    }
    None
}

/// Keeps the text of an index, which reaches an end, as the start of its part if it leaves that, and of each later part
/// that it leaves, up to one with a start.
fn keep_text(starts: &mut [u32; PARTS], heap: &[u8], part: usize, index: u32, reach: usize)
    requires first { 1 ≤ index }
    requires part { part ≡ length heap.now / 1024 + 1 }
    requires reaches { Reaches heap.now index reach }
    requires starts { AreStarts heap.now part starts.old }
    ensures starts { AreStarts heap.now part starts.new }
    ensures kept { index / part < 1024 → index / part < reach / part → slice_index starts.new (index / part) ≡ index }
{
    let slot = index as usize / part;
    if slot >= PARTS || reach / part <= slot {
        return;
    }
    let is_new = starts[slot] == 0;
    starts[slot] = index;
    if is_new {
        keep_endings(starts, heap, part, index, reach);
    }
}

/// Keeps the endings of the text of an index, which reaches an end, as the starts of the later parts that it leaves, up
/// to one with a start.
fn keep_endings(starts: &mut [u32; PARTS], heap: &[u8], part: usize, index: u32, reach: usize)
    requires part { part ≡ length heap.now / 1024 + 1 }
    requires reaches { Reaches heap.now index reach }
    requires starts { AreStarts heap.now part starts.old }
    ensures starts { AreStarts heap.now part starts.new }
    ensures same { slice_index starts.new (index / part) ≡ slice_index starts.old (index / part) }
{
    let slot = index as usize / part;
    for later in slot + 1..PARTS.min(reach / part) {
        if starts[later] != 0 {
            return;
        }
        let begin = later * part;
        if let Some(start) = first_character(heap, begin, begin + part) {
            starts[later] = start;
        }
    }
}
