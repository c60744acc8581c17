ghost use Rattle.std.specs.Prelude.{◌≡◌, ◌+◌, ◌*◌, ◌<◌, ◌≤◌, ◌^◌, ℕ, length};
ghost use Rattle.packed.specs.Rule.{AllHold};
ghost use Rattle.packed.specs.Limit.{byte_limit};
ghost use Rattle.pe.specs.Headers.{directory_count, optional_header_size, section_count, lfanew, wider};
ghost use Rattle.pe.specs.Rules.{rules_of_image};
ghost use Rattle.file_ranges.specs.Fields.{number_at, field_offset, field_of, directory_offset, last, section_offset, virtual_size, virtual_address, raw_size, raw_offset, headers_end};

use crate::field::Field;
use crate::section::Section;
use packed::{u16_at, u32_at};
use std::marker::Model;

/// Magic of PE32+ (II.25.2.3.1).
const PE32_PLUS: u16 = 0x20B;

/// The number of bytes that PE32+ has more than PE32 before the data directories.
const PE32_PLUS_WIDER: usize = 16;

/// The size of a section header in bytes (II.25.3).
pub const SECTION_HEADER: usize = 40;

/// The index of the Certificate Table among the data directories (II.25.2.3.3).
pub const CERTIFICATE: usize = 4;

/// The headers of a PE file that is an image (II.25.2, II.25.3). The offsets of fields are file offsets.
#[derive(Drop)]
pub struct Headers<'a> {
    file: &'a [u8],
    lfanew: usize,
    wider: usize,
    sections_offset: usize,
    section_count: usize,
}

impl<'a> Model for Headers<'a> {
    ghost use Rattle.std.specs.Prelude.{ℕ, List};
    ghost use Rattle.file_ranges.specs.Read.{AreRead};

    ghost Value = { List ℕ };

    ghost view = { λ headers. headers.file.now };

    ghost invariant = { AreRead };
}

impl<'a> Headers<'a> {
    /// The headers of a file.
    pub fn read(file: &'a [u8]) -> Headers<'a>
        requires { AllHold (rules_of_image file.now) }
        ensures { result ≡ file.now }
    {
        let lfanew = u32_at(file, 0x3C) as usize;
        let wider = if u16_at(file, lfanew + 24) == PE32_PLUS {
            PE32_PLUS_WIDER
        } else {
            0
        };
        Headers {
            file,
            lfanew,
            wider,
            sections_offset: lfanew + 24 + u16_at(file, lfanew + 20) as usize,
            section_count: u16_at(file, lfanew + 6) as usize,
        }
    }

    /// The whole file.
    pub fn file(&self) -> &'a [u8]
        ensures bytes { result.now ≡ self.now }
        ensures small { length self.now ≤ byte_limit }
        ensures image { AllHold (rules_of_image self.now) }
    {
        self.file
    }

    /// The offset of the PE signature (II.25.2.1).
    pub fn lfanew(&self) -> usize
        ensures { result ≡ lfanew self.now }
    {
        self.lfanew
    }

    /// The number in the four bytes at an offset.
    pub fn number(&self, offset: usize) -> u32
        requires { offset + 4 ≤ length self.now }
        ensures { result ≡ number_at self.now offset }
    {
        u32_at(self.file, offset)
    }

    /// The offset of a field.
    pub fn field_offset(&self, field: Field) -> usize
        ensures offset { result ≡ field_offset self.now field }
        ensures within { result + 4 ≤ length self.now }
    {
        let offset = match field {
            Field::Machine => 4,
            Field::InitializedDataSize => 32,
            Field::SectionAlignment => 56,
            Field::FileAlignment => 60,
            Field::ImageSize => 80,
            Field::HeaderSize => 84,
            Field::Checksum => 88,
        };
        self.lfanew + offset
    }

    /// The number in a field.
    pub fn field(&self, field: Field) -> u32
        ensures { result ≡ field_of self.now field }
    {
        self.number(self.field_offset(field))
    }

    /// The number of data directories that are counted and end within the optional header (II.25.2.3.3).
    pub fn directory_count(&self) -> usize
        ensures within { 96 + wider self.now + 8 * result ≤ optional_header_size self.now }
        ensures counted { result ≤ directory_count self.now }
        ensures all { (index : ℕ) → index < directory_count self.now → 104 + wider self.now + 8 * index ≤ optional_header_size self.now → index < result }
    {
        let counted = u32_at(self.file, self.lfanew + 116 + self.wider) as usize;
        let room = self.sections_offset - (self.lfanew + 120 + self.wider);
        counted.min(room / 8)
    }

    /// The offset of a data directory: its RVA, and its size four bytes later (II.25.2.3.3).
    pub fn directory_offset(&self, index: usize) -> usize
        requires { 104 + wider self.now + 8 * index ≤ optional_header_size self.now }
        ensures offset { result ≡ directory_offset self.now index }
        ensures within { result + 8 ≤ length self.now }
        ensures small { result ≤ 2 ^ 30 }
    {
        self.lfanew + 120 + self.wider + 8 * index
    }

    /// The offset of the directory of the Certificate Table (II.25.2.3.3).
    pub fn certificate_offset(&self) -> usize
        ensures offset { result ≡ directory_offset self.now 4 }
        ensures within { result + 8 ≤ length self.now }
    {
        self.lfanew + 120 + self.wider + 8 * CERTIFICATE
    }

    /// The number of section headers (II.25.2.2).
    pub fn section_count(&self) -> usize
        ensures value { result ≡ section_count self.now }
        ensures limit { result < 2 ^ 16 }
    {
        self.section_count
    }

    /// The offset of a section header (II.25.3).
    pub fn section_offset(&self, index: usize) -> usize
        requires { index ≤ section_count self.now }
        ensures offset { result ≡ section_offset self.now index }
        ensures within { index < section_count self.now → result + 40 ≤ length self.now }
    {
        self.sections_offset + SECTION_HEADER * index
    }

    /// A section header (II.25.3).
    pub fn section(&self, index: usize) -> Section
        requires { index < section_count self.now }
        ensures virtual_size { result.virtual_size ≡ virtual_size self.now index }
        ensures virtual_address { result.virtual_address ≡ virtual_address self.now index }
        ensures raw_size { result.raw_size ≡ raw_size self.now index }
        ensures raw_offset { result.raw_offset ≡ raw_offset self.now index }
    {
        Section::read(self.file, self.section_offset(index))
    }

    /// The last section header.
    pub fn last_section(&self) -> Section
        requires { 0 < section_count self.now }
        ensures virtual_size { result.virtual_size ≡ virtual_size self.now (last self.now) }
        ensures virtual_address { result.virtual_address ≡ virtual_address self.now (last self.now) }
        ensures raw_size { result.raw_size ≡ raw_size self.now (last self.now) }
        ensures raw_offset { result.raw_offset ≡ raw_offset self.now (last self.now) }
    {
        self.section(self.section_count - 1)
    }

    /// The end of the section headers.
    pub fn headers_end(&self) -> usize
        ensures offset { result ≡ headers_end self.now }
        ensures within { result ≤ length self.now }
    {
        self.section_offset(self.section_count)
    }
}
