ghost use Rattle.std.specs.Prelude.{◌≡◌, ◌+◌, ◌*◌, ◌≤◌, length};
ghost use Rattle.std.specs.List.{find};
ghost use Rattle.pe.specs.Headers.{section_at, sections_from};
ghost use Rattle.pe.specs.Offset.{has_bytes};

use packed::u32_at;

/// The size of a section header, in bytes.
pub const SECTION_HEADER_SIZE: usize = 40;

/// The fields of a section header that are needed to convert addresses to file offsets (II.25.3).
#[derive(Clone, Copy)]
pub struct SectionHeader {
    /// VirtualAddress: the address of the section's first byte.
    pub virtual_address: u32,
    /// SizeOfRawData: the number of the section's bytes in the file.
    pub size_of_raw_data: u32,
    /// PointerToRawData: the file offset of these bytes.
    pub pointer_to_raw_data: u32,
}

impl SectionHeader {
    ghost use Rattle.pe.specs.Headers.{section_at};
    ghost use Rattle.pe.specs.Offset.{has_bytes};

    /// The section header at an offset.
    fn read(bytes: &[u8], offset: usize) -> SectionHeader
        requires { offset + 40 ≤ length bytes.now }
        ensures { result ≡ section_at bytes.now offset }
    {
        SectionHeader {
            virtual_address: u32_at(bytes, offset + 12),
            size_of_raw_data: u32_at(bytes, offset + 16),
            pointer_to_raw_data: u32_at(bytes, offset + 20),
        }
    }

    /// Whether the file has all of the `n` bytes at address `rva` in this section.
    fn has_bytes(self, rva: u32, n: u32) -> bool
        ensures { result ≡ has_bytes rva n self }
    {
        let end = rva as u64 + n as u64;
        let section_end = self.virtual_address as u64 + self.size_of_raw_data as u64;
        self.virtual_address <= rva && end <= section_end
    }
}

/// The first of `count` sections that has these bytes. The section headers begin at offset `start`.
#[tactic(auto, using(crate::proofs::SectionLemmas::search_here, crate::proofs::SectionLemmas::search_more))]
pub fn find_section(
    bytes: &[u8],
    start: usize,
    count: usize,
    rva: u32,
    n: u32,
) -> Option<SectionHeader>
    requires { start + 40 * count ≤ length bytes.now }
    ensures { result ≡ find (has_bytes rva n) (sections_from bytes.now start count) }
{
    for number in 0..count {
        let section = SectionHeader::read(bytes, start + SECTION_HEADER_SIZE * number);
        if section.has_bytes(rva, n) {
            return Some(section);
        }
    }
    None
}
