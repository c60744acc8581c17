ghost use Rattle.std.specs.Prelude.{position, ◌==◌, ◌≡◌, ◌+◌, ◌*◌, ◌<◌, ◌≤◌, length, IfSome, IfNone};
ghost use Rattle.packed.specs.Limit.{byte_limit};
ghost use Rattle.root.specs.Rules.{HasHeader};
ghost use Rattle.root.specs.Fields.{before_nul, header_at, header_length};
ghost use Rattle.root.specs.Views.{view};

use packed::u32_at;

/// A stream header (II.24.2.2). Its name can be one that the standard does not define.
#[derive(Clone, Copy, Debug, PartialEq, Eq)]
pub struct StreamHeader<'a> {
    /// The offset of the header, in bytes from the start of the root.
    pub place: usize,
    /// The offset of the stream, in bytes from the start of the root.
    pub offset: u32,
    /// The size of the stream, in bytes.
    pub size: u32,
    /// The stream's name: ASCII, at most 32 characters, without the NUL at its end.
    pub name: &'a str,
}

/// The largest number of characters of a stream's name (II.24.2.2).
const NAME_LIMIT: usize = 32;

/// The index of the first NUL.
pub fn nul_in(bytes: &[u8]) -> Option<usize>
    ensures { result ≡ position (λ byte. byte == 0) bytes.now }
{
    bytes.iter().position(|byte| *byte == 0)
}

/// The header at an offset, if there is a valid one.
pub fn read_header(bytes: &[u8], place: usize) -> Option<StreamHeader<'_>>
    requires { length bytes.now ≤ byte_limit }
    ensures sound { IfSome result (λ header. HasHeader bytes.now place × (view header ≡ header_at bytes.now place)) }
    ensures end { IfSome result (λ header. place + header_length (view header) ≤ length bytes.now) }
    ensures none { IfNone result (HasHeader bytes.now place → ⊥) }
{
    if place > bytes.len() || bytes.len() - place < 8 {
        return None;
    }
    let (_, field) = bytes.split_at(place + 8);
    let len = nul_in(field)?;
    if len > NAME_LIMIT || field.len() < (len + 4) / 4 * 4 {
        return None;
    }
    let (name, _) = field.split_at(len);
    let name = std::str::from_utf8(name).ok()?;
    if !name.is_ascii() {
        return None;
    }
    Some(StreamHeader {
        place,
        offset: u32_at(bytes, place),
        size: u32_at(bytes, place + 4),
        name,
    })
}

impl StreamHeader<'_> {
    ghost use Rattle.root.specs.Views.{view};

    /// The offset of the end of the header, padding included.
    pub(crate) fn end(&self) -> usize
        requires { self.now.place + header_length (view self.now) ≤ byte_limit }
        ensures { result ≡ self.now.place + header_length (view self.now) }
    {
        self.place + 8 + (self.name.len() + 4) / 4 * 4
    }
}
