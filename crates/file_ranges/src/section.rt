ghost use Rattle.std.specs.Prelude.{◌≡◌, ◌+◌, ◌≤◌, length, max};

use packed::u32_at;

/// The fields of a section header that say where the section is (II.25.3).
#[derive(Clone, Copy)]
pub struct Section {
    /// VirtualSize: its size in memory.
    pub virtual_size: u32,
    /// VirtualAddress: its RVA.
    pub virtual_address: u32,
    /// SizeOfRawData: its size in the file.
    pub raw_size: u32,
    /// PointerToRawData: its file offset.
    pub raw_offset: u32,
}

impl Section {
    ghost use Rattle.file_ranges.specs.Fields.{number_at};

    /// The section header at an offset.
    pub fn read(file: &[u8], offset: usize) -> Section
        requires { offset + 40 ≤ length file.now }
        ensures virtual_size { result.virtual_size ≡ number_at file.now (offset + 8) }
        ensures virtual_address { result.virtual_address ≡ number_at file.now (offset + 12) }
        ensures raw_size { result.raw_size ≡ number_at file.now (offset + 16) }
        ensures raw_offset { result.raw_offset ≡ number_at file.now (offset + 20) }
    {
        Section {
            virtual_size: u32_at(file, offset + 8),
            virtual_address: u32_at(file, offset + 12),
            raw_size: u32_at(file, offset + 16),
            raw_offset: u32_at(file, offset + 20),
        }
    }

    /// The size in memory, or in the file if that is more.
    pub fn full_size(self) -> u32
        ensures { result ≡ max self.virtual_size self.raw_size }
    {
        self.virtual_size.max(self.raw_size)
    }

    /// The end of the section in memory.
    pub fn address_end(self) -> u64
        ensures { result ≡ self.virtual_address + max self.virtual_size self.raw_size }
    {
        self.virtual_address as u64 + self.full_size() as u64
    }

    /// The end of the section in the file.
    pub fn raw_end(self) -> u64
        ensures { result ≡ self.raw_offset + self.raw_size }
    {
        self.raw_offset as u64 + self.raw_size as u64
    }
}
