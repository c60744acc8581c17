ghost use Rattle.std.specs.Prelude.{◌≡◌, Some, IfOk};
ghost use Rattle.std.specs.String.{string_bytes};
ghost use Rattle.uuid.specs.Text.{hyphenated_text, lower, parsed};
ghost use Rattle.heap_entries.specs.GuidText.{as_read};

use std::alloc::{AllocError, Global};
use uuid::Uuid;

/// The text of a GUID: 32 hexadecimal digits in lower case and four hyphens, without braces.
///
/// The first 4, 2 and 2 bytes are little-endian numbers, and the other 8 keep their order.
/// So the text of the bytes 00 01 02 .. 0F is `03020100-0504-0706-0809-0a0b0c0d0e0f`.
///
/// # Errors
///
/// Out of memory only.
#[tactic(auto, using(crate::proofs::GuidTextLemmas::swapped_is, crate::proofs::GuidTextLemmas::copy_is, crate::proofs::GuidTextLemmas::copy_parses))]
pub fn guid_text(alloc: Global, guid: &[u8; 16]) -> Result<String, AllocError>
    ensures text { IfOk result (λ text. string_bytes text ≡ hyphenated_text lower (as_read guid.now)) }
    ensures parsed { IfOk result (λ text. parsed (string_bytes text) ≡ Some (as_read guid.now)) }
{
    let mut buffer = Uuid::encode_buffer();
    let text = Uuid::from_bytes_le(*guid)
        .hyphenated()
        .encode_lower(&mut buffer);
    String::from_str(alloc, text)
}
