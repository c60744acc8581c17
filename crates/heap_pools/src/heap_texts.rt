ghost use Rattle.std.specs.Prelude.{◌≡◌, ◌≤◌, ◌<◌, ◌-◌, ℕ, length, slice_index, vec_len, IfOk};
ghost use Rattle.heap_pools.specs.HeapTexts.{heap_text, texts_at};
ghost use Rattle.heap_pools.specs.StartUses.{AreStartUses};
ghost use Rattle.heap_pools.specs.Uses.{bytes_of};

use memchr::memchr;
use std::alloc::{AllocError, Global};

/// The start of a text in a strings heap, and its use index. StartUses are ordered by starts.
#[derive(Clone, Copy, PartialEq, Eq, PartialOrd, Ord)]
pub struct StartUse {
    pub start: u32,
    pub use_index: usize,
}

/// The texts up to one NUL: the least start, and the text there, which ends with all others.
#[derive(Clone, Copy)]
struct Group<'a> {
    start: usize,
    text: &'a [u8],
}

/// The text at an index into a strings heap (II.24.2.3). Without a NUL it ends with the heap.
fn text_in_heap(heap: &[u8], index: usize) -> &[u8]
    ensures { result.now ≡ heap_text heap.now index }
{
    if index == 0 || index > heap.len() {
        return &[];
    }
    let (_, tail) = heap.split_at(index);
    let Some(len) = memchr(0, tail) else {
        return tail;
    };
    let (text, _) = tail.split_at(len);
    text
}

/// The group of the text at a start: this one if it has that text, otherwise a new one.
fn group_at<'a>(heap: &'a [u8], group: Group<'a>, start: usize) -> Group<'a>
    requires { group.text.now ≡ heap_text heap.now group.start }
    ensures group { result.text.now ≡ heap_text heap.now result.start }
    ensures from { result.start ≤ start }
    ensures to { start - result.start ≤ length result.text.now }
{
    if group.start <= start && start - group.start <= group.text.len() {
        return group;
    }
    Group {
        start,
        text: text_in_heap(heap, start),
    }
}

/// The start at each use index, in the order of the starts, and then of the use indexes.
pub fn start_uses_of(alloc: Global, starts: &[u32]) -> Result<Vec<StartUse>, AllocError>
    ensures { IfOk result (λ start_uses. AreStartUses starts.now start_uses.items) }
{
    let mut start_uses = Vec::with_capacity(alloc, starts.len())?;
    for use_index in 0..starts.len() {
        start_uses.push(StartUse {
            start: starts[use_index],
            use_index,
        })?;
    }
    start_uses.sort_unstable();
    Ok(start_uses)
}

/// The text at each use index.
///
/// In the order of starts, a text of a group is found from the one before, so that no byte of the heap is read twice.
pub fn read_texts<'a>(
    alloc: Global,
    heap: &'a [u8],
    starts: &[u32],
    start_uses: &[StartUse],
) -> Result<Vec<&'a [u8]>, AllocError>
    requires { AreStartUses starts.now start_uses.now }
    ensures { IfOk result (λ texts. bytes_of texts.items ≡ texts_at heap.now starts.now) }
{
    let mut group = Group {
        start: 0,
        text: &[],
    };
    let mut texts = vec![in alloc; group.text; starts.len()]?;
    for start_use in start_uses {
        let start = start_use.start as usize;
        group = group_at(heap, group, start);
        let (_, text) = group.text.split_at(start - group.start);
        texts[start_use.use_index] = text;
    }
    Ok(texts)
}

/// Each use index below `count`, as the first one of its text.
///
/// # Errors
///
/// Only if out of memory.
pub fn own_firsts(alloc: Global, count: usize) -> Result<Vec<usize>, AllocError>
    ensures len { IfOk result (λ firsts. vec_len firsts ≡ count) }
    ensures own { IfOk result (λ firsts. (use_index : ℕ) → use_index < count → slice_index firsts.items use_index ≡ use_index) }
{
    let mut firsts = Vec::with_capacity(alloc, count)?;
    for use_index in 0..count {
        firsts.push(use_index)?;
    }
    Ok(firsts)
}
