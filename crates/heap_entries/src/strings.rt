ghost use Rattle.std.specs.Prelude.{◌≡◌, ℕ, List, IfOk, IsOkAnd, IfSome, IfNone, MatchOption, IsUtf8};
ghost use Rattle.std.specs.Str.{is_utf8};
ghost use Rattle.packed.specs.Rule.{Reports};
ghost use Rattle.heap_entries.specs.Rules.{at_offset, rules_of_text};
ghost use Rattle.heap_entries.specs.Entries.{IsEnded, IsText};

use crate::fault::HeapFault;
use memchr::{memchr, memrchr};
use simdutf8::basic;
use std::marker::Model;
use std::str;

/// The bytes from an offset up to the next NUL.
fn ended_at(heap: &[u8], start: usize) -> Option<&[u8]>
    ensures sound { IfSome result (λ bytes. IsEnded heap.now start bytes.now) }
    ensures none { IfNone result ((bytes : List ℕ) → IsEnded heap.now start bytes → ⊥) }
{
    if start > heap.len() {
        return None;
    }
    let (_, tail) = heap.split_at(start);
    let len = memchr(0, tail)?;
    let (bytes, _) = tail.split_at(len);
    Some(bytes)
}

/// The text at an index into `#Strings` (II.24.2.3). It borrows the bytes of the heap.
///
/// The index is an offset in bytes and may point into another text. Index 0 is the empty text, even if
/// the heap is absent and so has no bytes.
///
/// # Errors
///
/// `BadString` if there is no NUL at the index or after it. `BadUtf8` if the bytes before the first such NUL are
/// not UTF-8.
pub fn text(heap: &[u8], index: u32) -> Result<&str, HeapFault>
    // If it returns a text, this is the text at the index.
    ensures sound { IfOk result (λ text. IsText heap.now index text.now) }
    // If there is a text at the index, it returns this text. So there is no other.
    ensures complete { (text : List ℕ) → IsText heap.now index text → IsOkAnd result (λ found. found.now ≡ text) }
    // A fault is that of the first broken rule.
    ensures reports { (offset : ℕ) → Reports (rules_of_text heap.now index offset) (at_offset offset result) }
{
    if index == 0 {
        return Ok("");
    }
    let Some(bytes) = ended_at(heap, index as usize) else {
        return Err(HeapFault::BadString);
    };
    match basic::from_utf8(bytes) {
        Ok(text) => Ok(text),
        Err(_) => Err(HeapFault::BadUtf8),
    }
}

/// Checks that there is a text at an index, by reading the bytes of that text.
fn check_alone(heap: &[u8], index: u32) -> Result<(), HeapFault>
    ensures reports { (offset : ℕ) → Reports (rules_of_text heap.now index offset) (at_offset offset result) }
{
    text(heap, index)?;
    Ok(())
}

/// The heap as a text, if it is known to be UTF-8.
fn known_text(heap: &[u8], utf8: bool) -> Option<&str>
    requires { utf8 ≡ is_utf8 heap.now }
    ensures { MatchOption result (¬ IsUtf8 heap.now) (λ whole. (whole.now ≡ heap.now) × IsUtf8 heap.now) }
{
    if utf8 {
        Some(unsafe { str::from_utf8_unchecked(heap) })
    } else {
        None
    }
}

/// The bytes of a `#Strings` heap (II.24.2.3), with what is known about the heap as a whole.
///
/// Its methods return what the function `text` returns. If the whole heap is UTF-8, `text` does not check for UTF-8
/// again, and after `new`, `check` takes constant time for a valid index. Otherwise both read the bytes of a text.
#[derive(Clone, Drop)]
pub struct Strings<'a> {
    heap: &'a [u8],
    /// The heap as a text, if all of it is UTF-8.
    whole: Option<&'a str>,
    /// The offset of the last NUL, if it is known.
    last_nul: Option<usize>,
}

impl<'a> Model for Strings<'a> {
    ghost use Rattle.std.specs.Prelude.{List, ℕ};

    ghost Value = { List ℕ };

    ghost use Rattle.heap_entries.specs.StringsView.{heap_of, IsKnown};

    ghost view = { heap_of };

    ghost invariant = { IsKnown };
}

impl<'a> Strings<'a> {
    /// Reads the bytes of a heap once. The call does not allocate. An absent heap has no bytes.
    pub fn new(heap: &'a [u8]) -> Strings<'a>
        ensures { result ≡ heap.now }
    {
        Strings {
            heap,
            whole: basic::from_utf8(heap).ok(),
            last_nul: memrchr(0, heap),
        }
    }

    /// The bytes of a heap for which it is already known whether all of them are UTF-8.
    ///
    /// They are not read again, so this takes constant time. `check` then reads each text up to its NUL.
    pub fn again(heap: &'a [u8], utf8: bool) -> Strings<'a>
        requires { utf8 ≡ is_utf8 heap.now }
        ensures { result ≡ heap.now }
    {
        Strings {
            heap,
            whole: known_text(heap, utf8),
            last_nul: None,
        }
    }

    /// The bytes of the heap.
    pub fn heap(&self) -> &'a [u8]
        ensures { result.now ≡ self.now }
    {
        self.heap
    }

    /// Whether all bytes of the heap are UTF-8. Takes constant time.
    pub fn is_utf8(&self) -> bool
        ensures { result ≡ is_utf8 self.now }
    {
        self.whole.is_some()
    }

    /// Checks that there is a text at an index into the heap (II.24.2.3).
    ///
    /// # Errors
    ///
    /// The same as for the function [`text`].
    pub fn check(&self, index: u32) -> Result<(), HeapFault>
        ensures reports { (offset : ℕ) → Reports (rules_of_text self.now index offset) (at_offset offset result) }
    {
        let Some(whole) = self.whole else {
            return check_alone(self.heap, index);
        };
        let start = index as usize;
        match self.last_nul {
            _ if start == 0 => Ok(()),
            Some(last) if start <= last && whole.is_char_boundary(start) => Ok(()),
            Some(last) if start <= last => Err(HeapFault::BadUtf8),
            _ => check_alone(self.heap, index),
        }
    }

    /// The text at an index into the heap (II.24.2.3).
    ///
    /// # Errors
    ///
    /// The same as for the function [`text`].
    pub fn text(&self, index: u32) -> Result<&'a str, HeapFault>
        ensures sound { IfOk result (λ text. IsText self.now index text.now) }
        ensures complete { (text : List ℕ) → IsText self.now index text → IsOkAnd result (λ found. found.now ≡ text) }
        ensures reports { (offset : ℕ) → Reports (rules_of_text self.now index offset) (at_offset offset result) }
    {
        let Some(whole) = self.whole else {
            return text(self.heap, index);
        };
        let start = index as usize;
        if start == 0 {
            return Ok("");
        }
        match ended_at(self.heap, start) {
            Some(bytes) if whole.is_char_boundary(start) => Ok(&whole[start..start + bytes.len()]),
            Some(_) => Err(HeapFault::BadUtf8),
            None => Err(HeapFault::BadString),
        }
    }
}
