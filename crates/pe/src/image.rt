ghost use Rattle.std.specs.Prelude.{◌≡◌, ℕ, ◌+◌, ◌≤◌, length, IfOk, IfErr, IfSome, IsOkAnd, IsSomeAnd};
ghost use Rattle.packed.specs.Rule.{AllHold, Reports, FirstBroken};
ghost use Rattle.pe.specs.Rules.{rules_of_image};
ghost use Rattle.pe.specs.Headers.{image_of};
ghost use Rattle.pe.specs.Image.{Image, IsImage};
ghost use Rattle.pe.specs.Offset.{IsFileOffset};

use crate::headers::{
    OPTIONAL_HEADER, check_sections, read_dos_header, read_file_header, read_optional_header,
};
use crate::laws;
use crate::section::find_section;
use packed::{Fault, u32_at};
use std::alloc::AllocError;
use std::marker::Model;
use std::ops::Range;

/// A PE file. It borrows the bytes that it was read from.
#[derive(Drop)]
pub struct Pe<'a> {
    bytes: &'a [u8],
    cli_directory_offset: usize,
    sections_offset: usize,
    section_count: usize,
}

impl<'a> Model for Pe<'a> {
    ghost use Rattle.pe.specs.Image.{Image};

    ghost Value = { Image };

    ghost use Rattle.pe.specs.Checked.{shown_image, IsChecked};

    ghost view = { shown_image };

    ghost invariant = { IsChecked };
}

impl<'a> Clone for Pe<'a> {
    ghost use Rattle.std.specs.Prelude.{◌≡◌, ⊤};

    ghost is_clone = { λ from to. to ≡ from };

    ghost is_infallible = { λ _. ⊤ };

    /// The same value. It does not allocate, and never fails.
    fn clone(&self) -> Result<Self, AllocError> {
        Ok(Pe {
            bytes: self.bytes,
            cli_directory_offset: self.cli_directory_offset,
            sections_offset: self.sections_offset,
            section_count: self.section_count,
        })
    }
}

impl<'a> Pe<'a> {
    /// The whole file.
    pub fn bytes(&self) -> &'a [u8]
        ensures { result.now ≡ self.now.bytes }
    {
        self.bytes
    }

    /// The RVA and the size in bytes of the CLI header, from the fifteenth data directory (II.25.2.3.3).
    ///
    /// Both are 0 in a file that has no CLI header.
    pub fn cli_directory(&self) -> (u32, u32)
        ensures { result ≡ self.now.cli_directory }
    {
        let offset = self.cli_directory_offset;
        (u32_at(self.bytes, offset), u32_at(self.bytes, offset + 4))
    }

    /// The file offset of the CLI header's data directory: the RVA, and the size four bytes later.
    pub fn cli_directory_offset(&self) -> usize
        ensures { result ≡ self.now.cli_directory_offset }
    {
        self.cli_directory_offset
    }

    /// The file span of the `n` bytes at address `rva` (II.25.3).
    ///
    /// Only the first section that has all of them counts. Returns `None` if no section has them, or if
    /// the file ends before they do. It does not try a later section then.
    pub fn range(&self, rva: u32, n: u32) -> Option<Range<usize>>
        ensures sound { IfSome result (λ range. IsFileOffset self.now rva n range.start × (range.«end» ≡ range.start + n)) }
        ensures complete { (offset : ℕ) → IsFileOffset self.now rva n offset
            → IsSomeAnd result (λ range. (range.start ≡ offset) × (range.«end» ≡ offset + n)) }
    {
        let section = find_section(self.bytes, self.sections_offset, self.section_count, rva, n)?;
        let start = section.pointer_to_raw_data as usize + (rva - section.virtual_address) as usize;
        let end = start + n as usize;
        if end > self.bytes.len() {
            return None;
        }
        Some(start..end)
    }
}

/// Checks all rules. Returns the image, or the fault of the first broken rule.
fn check_image(bytes: &[u8]) -> Result<Pe<'_>, Fault>
    ensures reports { Reports (rules_of_image bytes.now) result }
    ensures image { IfOk result (λ image. image ≡ image_of bytes.now) }
    ensures within { IfErr result (λ fault. fault.offset ≤ length bytes.now) }
{
    let lfanew = read_dos_header(bytes)?;
    let header = read_file_header(bytes, lfanew)?;
    let cli_directory_offset = read_optional_header(bytes, lfanew, header.optional_header_size)?;
    let sections_offset = lfanew + OPTIONAL_HEADER + header.optional_header_size;
    check_sections(bytes, lfanew, sections_offset, header.section_count)?;
    Ok(Pe {
        bytes,
        cli_directory_offset,
        sections_offset,
        section_count: header.section_count,
    })
}

/// Reads the headers of a PE file (II.25.2 and II.25.3). The bytes are the whole file.
///
/// The call does not allocate, and its time does not depend on the size of the file. It does not check
/// machine, characteristics, alignments and the sizes of sections in memory.
///
/// # Errors
///
/// The fault of the first broken rule for the headers, with its offset in the file.
pub fn read_pe(bytes: &[u8]) -> Result<Pe<'_>, Fault>
    // If it returns an image, the bytes are this image.
    ensures sound { IfOk result (λ image. IsImage bytes.now image) }
    // If the bytes are an image, it returns this image. Bytes are at most one image.
    ensures complete { (image : Image) → IsImage bytes.now image → IsOkAnd result (λ found. found ≡ image) }
    // If it returns an image, all rules hold, and the image has the values of the headers.
    ensures all { IfOk result (λ image. AllHold (rules_of_image bytes.now) × (image ≡ image_of bytes.now)) }
    // A fault is that of the first broken rule.
    ensures first_error { IfErr result (FirstBroken (rules_of_image bytes.now)) }
    // The fault's offset is within the bytes, or at their end.
    ensures within { IfErr result (λ fault. fault.offset ≤ length bytes.now) }
{
    laws::images_are_read();
    check_image(bytes)
}
