//! Bytes in a caller's buffer.
ghost use Rattle.std.specs.Prelude.{◌≡◌, length};
ghost use Rattle.c_texts.specs.Texts.{Extends, counted, joined, overwritten, with_text};

/// What is returned instead of the length of what is too long.
pub const TOO_LONG: usize = usize::MAX;

/// What is returned instead of a length if memory runs out.
pub const NO_MEMORY: usize = usize::MAX - 1;

/// The largest length of a root in bytes.
pub const ROOT_LIMIT: u32 = 1 << 30;

/// Writes bytes into a buffer from an offset on, up to the end of the buffer.
pub fn copy_at(buffer: &mut [u8], at: usize, bytes: &[u8])
    ensures { buffer.new ≡ overwritten buffer.old at bytes.now }
{
    if at >= buffer.len() {
        return;
    }
    let count = bytes.len().min(buffer.len() - at);
    let (fits, _) = bytes.split_at(count);
    buffer[at..at + count].copy_from_slice(fits);
}

/// Writes bytes after the first `len` bytes of a text, up to the end of the buffer. Returns the length of the text with
/// them, or `most` if it is longer.
pub(crate) fn append(buffer: &mut [u8], len: usize, bytes: &[u8], most: usize) -> usize
    ensures { Extends most buffer.old len bytes.now buffer.new result }
{
    copy_at(buffer, len, bytes);
    len.saturating_add(bytes.len()).min(most)
}

/// Writes the parts of a text into a buffer, up to its length, and returns the length of the whole text.
pub(crate) fn write_parts(buffer: &mut [u8], parts: &[&[u8]]) -> usize
    ensures bytes { buffer.new ≡ with_text buffer.old (joined parts.now) }
    ensures length { result ≡ counted (length (joined parts.now)) }
{
    let mut len = 0;
    for part in parts {
        len = append(buffer, len, part, usize::MAX);
    }
    len
}
