ghost use Rattle.std.specs.Prelude.{◌≡◌, length};
ghost use Rattle.heap_entries.specs.GuidText.{as_read};
ghost use Rattle.uuid.specs.Text.{braced_text, lower};
ghost use Rattle.c_texts.specs.Texts.{with_text};

use crate::parts::write_parts;
use uuid::Uuid;
use uuid::fmt::Braced;

/// Writes the text of a GUID into a buffer, up to its length: 32 hexadecimal digits in lower case and four hyphens, in
/// braces (II.24.2.5). Returns 38, the length of the text.
pub fn write_guid(guid: &[u8; 16], buffer: &mut [u8]) -> usize
    ensures bytes { buffer.new ≡ with_text buffer.old (braced_text lower (as_read guid.now)) }
    ensures length { result ≡ 38 }
{
    let mut text = [0; Braced::LENGTH];
    let text = Uuid::from_bytes_le(*guid).braced().encode_lower(&mut text);
    write_parts(buffer, &[text.as_bytes()]);
    Braced::LENGTH
}
