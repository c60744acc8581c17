//! The text of a declaration with the names as they are in the file.
ghost use Rattle.std.specs.Prelude.{◌≡◌, IfOk, if◌then◌else◌};
ghost use Rattle.std.specs.Str.{is_utf8};
ghost use Rattle.cli_sending.specs.AsIs.{as_is};

use crate::letters::{ReadBack, push_read};
use memchr::memchr;
use std::alloc::AllocError;
use std::str;

/// The text that bytes are, or another text if they are no UTF-8.
#[tactic(auto, using(crate::proofs::LetterLemmas::utf8_is, crate::proofs::LetterLemmas::utf8_is_not))]
fn text_or<'t>(bytes: &'t [u8], other: &'t str) -> &'t str
    ensures { result.now ≡ (if is_utf8 bytes.now then bytes.now else other.now) }
{
    str::from_utf8(bytes).unwrap_or(other)
}

/// A text whose escapes are read back, unless that is no UTF-8. Then, and if it has no escapes, it is the same text. What
/// is read back replaces what `room` has.
///
/// # Errors
///
/// Out of memory.
pub fn text_as_is<'t>(text: &'t str, room: &'t mut Vec<u8>) -> Result<&'t str, AllocError>
    ensures { IfOk result (λ shown. shown.now ≡ as_is text.now) }
{
    match memchr(b'\\', text.as_bytes()) {
        Some(_) => {
            room.clear();
            push_read(ReadBack::Bytes, text.as_bytes(), room)?;
            Ok(text_or(room, text))
        }
        None => Ok(text),
    }
}
