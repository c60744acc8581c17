//! Reads back escapes of a text: those of bytes, or those of letters beyond ASCII.
ghost use Rattle.std.specs.Prelude.{◌≡◌, ◌++◌, ◌+◌, ◌<◌, ◌≤◌, length, take, drop, IfOk, OnOk, vec_len};
ghost use Rattle.std.specs.Str.{continuation_len};
ghost use Rattle.cli_sending.specs.Letters.{first_char, found_at, is_letter, letter_from, readable, readable_after};

use crate::escapes::{AFTER_BACKSLASH, escaped_at, read_start};
use memchr::memchr;
use std::alloc::AllocError;
use std::str;
use ucd_category::{GeneralCategory, GeneralCategoryGroup};
use ucd_derived::is_default_ignorable_code_point;

/// The most bytes that a character has in UTF-8.
const MOST: usize = 4;

/// Which escapes are read back.
#[derive(Clone, Copy)]
pub enum ReadBack {
    /// Those of all bytes but quotes and backslashes.
    Bytes,
    /// Those of letters beyond ASCII.
    Letters,
}

/// Whether a character is a letter, mark, number, punctuation mark or symbol beyond ASCII that has a picture.
pub fn is_letter(c: char) -> bool
    ensures { result ≡ is_letter c }
{
    let category = GeneralCategory::for_char(c);
    !c.is_ascii()
        && !GeneralCategoryGroup::Other.contains(category)
        && !GeneralCategoryGroup::Separator.contains(category)
        && !is_default_ignorable_code_point(c)
}

/// The number of bytes of the character that begins with a byte.
fn char_len(first: u8) -> usize
    ensures len { result ≡ 1 + continuation_len first }
    ensures most { result ≤ 4 }
{
    match first {
        0..128 => 1,
        128..224 => 2,
        224..240 => 3,
        _ => MOST,
    }
}

/// The character at the start of bytes, if they are UTF-8.
#[tactic(auto, using(crate::proofs::LetterLemmas::utf8_is, crate::proofs::LetterLemmas::utf8_is_not))]
fn first_char(bytes: &[u8]) -> Option<char>
    ensures { result ≡ first_char bytes.now }
{
    str::from_utf8(bytes).ok()?.chars().next()
}

/// The bytes of the letter whose escapes are at the start of a text, by the first of them; empty if there is no letter.
fn letter_from<'r>(first: u8, text: &[u8], room: &'r mut [u8; MOST]) -> &'r [u8]
    ensures bytes { result.now ≡ letter_from first text.now }
    ensures most { length result.now ≤ 4 }
{
    let start = room.split_at_mut(char_len(first)).0;
    let count = read_start(text, start);
    let bytes = start.split_at(count).0;
    match first_char(bytes) {
        Some(letter) if is_letter(letter) => bytes,
        _ => &[],
    }
}

/// The bytes whose escapes at the start of a text are read back; empty if there are none.
#[tactic(auto, unfolding(crate::specs::Letters::found_at))]
#[inline(always)]
fn found_at<'r>(what: ReadBack, text: &[u8], room: &'r mut [u8; MOST]) -> &'r [u8]
    ensures bytes { result.now ≡ found_at what text.now }
    ensures most { length result.now ≤ 4 }
{
    match (escaped_at(text), what) {
        (None, _) => &[],
        (Some(byte), ReadBack::Bytes) => {
            *room = [byte; MOST];
            room.split_at(1).0
        }
        (Some(first), ReadBack::Letters) => letter_from(first, text, room),
    }
}

/// Reads the start of a text: it appends the bytes whose escapes are read back there, or else the first byte, and returns how
/// many of the next bytes are those of the escapes. If bytes are to be passed over, it passes over the first.
#[inline(always)]
fn read_first(
    what: ReadBack,
    text: &[u8],
    skipped: usize,
    out: &mut Vec<u8>,
) -> Result<usize, AllocError>
    requires { 0 < length text.now }
    ensures { IfOk result (λ left. out.new.items ++ readable_after what left (drop 1 text.now) ≡ out.old.items ++ readable_after what skipped text.now) }
{
    if skipped > 0 {
        return Ok(skipped - 1);
    }
    let mut room = [0; MOST];
    let found = found_at(what, text, &mut room);
    if found.is_empty() {
        out.push(text[0])?;
        return Ok(0);
    }
    out.extend_from_slice(found)?;
    Ok((1 + AFTER_BACKSLASH) * found.len() - 1)
}

/// Appends a text with escapes read back, one byte at a time.
#[inline(always)]
pub(crate) fn push_read(what: ReadBack, text: &[u8], out: &mut Vec<u8>) -> Result<(), AllocError>
    ensures { OnOk result (out.new.items ≡ out.old.items ++ readable_after what 0 text.now) }
{
    let mut skipped = 0;
    for index in 0..text.len() {
        skipped = read_first(what, text.split_at(index).1, skipped, out)?;
    }
    Ok(())
}

/// Shows the letters of a line from a byte on.
///
/// # Errors
///
/// Out of memory.
pub fn show_letters(start: usize, line: &mut Vec<u8>) -> Result<(), AllocError>
    requires { start ≤ vec_len line.old }
    ensures { OnOk result (line.new.items ≡ take start line.old.items ++ readable (drop start line.old.items)) }
{
    match memchr(b'\\', line.split_at(start).1) {
        Some(_) => {
            let text = line.split_off(start)?;
            push_read(ReadBack::Letters, &text, line)
        }
        None => Ok(()),
    }
}
