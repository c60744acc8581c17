//! The resources directory of a file (II.25.3.3), and the contents in it.
ghost use Rattle.std.specs.Prelude.{◌≡◌, ◌+◌, ℕ, List, IfSome, IsSomeAnd};
ghost use Rattle.file_ranges.specs.Resources.{IsContent, IsDirectoryOf};

use cli_header::CliHeader;
use packed::u32_at;
use pe::read_pe;

/// The number of bytes of the length before a content.
const LENGTH_SIZE: usize = 4;

/// The resources directory of a file (II.25.3.3).
#[derive(Clone, Copy)]
pub struct Directory<'a> {
    /// Its file offset, in bytes.
    pub start: u32,
    /// Its bytes.
    pub bytes: &'a [u8],
}

/// The content of a resource.
#[derive(Clone, Copy)]
pub struct Content<'a> {
    /// Its file offset, in bytes.
    pub offset: u64,
    /// Its bytes.
    pub bytes: &'a [u8],
}

impl<'a> Directory<'a> {
    /// The content at an offset of the directory, which is that of its length; `None` if it is not within the directory.
    pub fn content(self, relative: u32) -> Option<Content<'a>>
        ensures sound { IfSome result (λ content. IsContent self.entry.bytes.now relative content.bytes.now) }
        ensures complete { (content : List ℕ) → IsContent self.entry.bytes.now relative content → IsSomeAnd result (λ found. found.bytes.now ≡ content) }
        ensures offset { IfSome result (λ content. content.offset ≡ self.entry.start + relative + 4) }
    {
        packed::laws::fields_are_parts();
        let first = relative as usize + LENGTH_SIZE;
        if self.bytes.len() < first {
            return None;
        }
        let size = u32_at(self.bytes, relative as usize) as usize;
        let (_, tail) = self.bytes.split_at(first);
        if tail.len() < size {
            return None;
        }
        let (bytes, _) = tail.split_at(size);
        Some(Content {
            offset: self.start as u64 + first as u64,
            bytes,
        })
    }
}

/// The resources directory of a file with a CLI header; `None` if the file does not have all of it.
///
/// Its time is linear in the number of section headers.
pub fn directory_of<'a>(file: &'a [u8], header: &CliHeader) -> Option<Directory<'a>>
    ensures { IsDirectoryOf file.now header.now result }
{
    packed::laws::fields_are_parts();
    let Ok(pe) = read_pe(file) else {
        return None;
    };
    let range = pe.range(header.resources.rva, header.resources.size)?;
    let (_, tail) = file.split_at(range.start);
    let (bytes, _) = tail.split_at(header.resources.size as usize);
    Some(Directory {
        start: range.start as u32,
        bytes,
    })
}
