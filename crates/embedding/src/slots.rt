//! Where a root fits in a file.
ghost use Rattle.std.specs.Prelude.{◌≡◌, ◌+◌, ◌<◌, ◌≤◌, ◌^◌, ◌⊎◌, ◌↔◌, ℕ, IsTrue, IfErr, IfNone, IfOk, IfSome};
ghost use Rattle.pe.specs.Headers.{section_count};
ghost use Rattle.metadata.specs.SourceAt.{source_of};
ghost use Rattle.file_ranges.specs.Fields.{virtual_address, raw_size, raw_offset, address_end, raw_end, headers_end};
ghost use Rattle.embedding.specs.Slots.{target_of, address_before, HasSlot, HasRoom, IsNewSection, IsLongerSection, EndsFile, IsAligned, IsSlot, FitsAt};
ghost use Rattle.embedding.specs.Errors.{IsMisfit};
ghost use Rattle.embedding.specs.Planned.{IsOpened};

use crate::error::EmbedError;
use crate::slot::{Slot, Target};
use cli_header::{CliHeader, Pe};
use file_ranges::{Field, Headers, SECTION_HEADER, aligned, is_free};
use heap_entries::are_zeros;
use opening::View;
use packed::BYTE_LIMIT;

/// The size of a CLI header in bytes (II.25.3.3).
const CLI_HEADER: usize = 72;

/// The largest number of sections.
const SECTIONS: usize = 0xFFFF;

/// The alignment of a root in an extended section.
const ROOT_ALIGNMENT: u32 = 4;

/// A file that is open: its image, its headers and its metadata.
#[derive(Drop)]
pub struct Opened<'a> {
    /// It finds the bytes at an address.
    pub image: Pe<'a>,
    /// The PE headers.
    pub headers: Headers<'a>,
    /// The CLI header.
    pub header: CliHeader,
    /// The metadata.
    pub view: View<'a>,
}

/// Where a root of this length goes.
pub fn slot_of(file: &Opened, len: usize) -> Result<Slot, EmbedError>
    requires opened { IsOpened file.now.headers file.now }
    requires small { len ≤ 2 ^ 30 }
    ensures fits { IfOk result (FitsAt file.now.headers len file.now.header (source_of file.now.view)) }
    ensures misfit { IfErr result (IsMisfit file.now.headers len file.now.header (source_of file.now.view)) }
{
    let header = &file.header;
    let headers = &file.headers;
    if len <= header.metadata.size as usize {
        return reused(file, len);
    }
    let memory = headers.field(Field::SectionAlignment);
    if memory == 0 || headers.field(Field::FileAlignment) == 0 {
        return Err(EmbedError::NoRoom);
    }
    if has_room(headers, header) {
        match appended(headers) {
            Some((address, offset)) => in_range(file, len, Slot::Appended { address, offset }),
            None => Err(EmbedError::NoRoom),
        }
    } else {
        match extended(headers, header) {
            Some(within) => in_range(file, len, Slot::Extended { within }),
            None => Err(EmbedError::NoRoom),
        }
    }
}

/// The range of the old root, if it has nothing else in it.
fn reused(file: &Opened, len: usize) -> Result<Slot, EmbedError>
    requires opened { IsOpened file.now.headers file.now }
    requires short { len ≤ file.now.header.metadata.size }
    ensures fits { IfOk result (FitsAt file.now.headers len file.now.header (source_of file.now.view)) }
    ensures misfit { IfErr result (IsMisfit file.now.headers len file.now.header (source_of file.now.view)) }
{
    let header = &file.header;
    let is_found = match file.image.range(header.metadata.rva, len as u32) {
        Some(range) => range.start == header.root.start,
        None => false,
    };
    if is_found && is_free(&file.headers, header, file.view.source()) {
        Ok(Slot::Reused)
    } else {
        Err(EmbedError::Occupied)
    }
}

/// The address and the file offset of a new section, if both are below 2^32 (II.25.2.3.2, II.25.3).
fn appended(headers: &Headers) -> Option<(u32, u32)>
    requires { IsAligned headers.now }
    ensures section { IfSome result (λ section. IsNewSection headers.now section.0 section.1) }
    ensures none { IfNone result ((address offset : ℕ) → IsNewSection headers.now address offset → (2 ^ 32 ≤ address) ⊎ (2 ^ 32 ≤ offset)) }
{
    let lowest = last_address(headers).max(headers.field(Field::ImageSize) as u64);
    let address = aligned(headers.field(Field::SectionAlignment), lowest);
    let offset = aligned(
        headers.field(Field::FileAlignment),
        headers.file().len() as u64,
    );
    if address > u32::MAX as u64 || offset > u32::MAX as u64 {
        return None;
    }
    Some((address as u32, offset as u32))
}

/// Whether there is room for one more section header (II.25.2.3.2, II.25.3).
fn has_room(headers: &Headers, header: &CliHeader) -> bool
    ensures { IsTrue result ↔ HasRoom headers.now header.now }
{
    let file = headers.file();
    let start = headers.headers_end();
    let end = start + SECTION_HEADER;
    if headers.section_count() >= SECTIONS || file.len() < end || header.place < end {
        return false;
    }
    let is_within = end <= headers.field(Field::HeaderSize) as usize;
    if !is_within || !are_zeros(&file[start..end]) {
        return false;
    }
    are_after(headers, end)
}

/// Whether all sections that have bytes in the file begin at this file offset or later.
fn are_after(headers: &Headers, offset: usize) -> bool
    ensures { IsTrue result ↔ ((index : ℕ) → index < section_count headers.now → (raw_size headers.now index ≡ 0) ⊎ (offset ≤ raw_offset headers.now index)) }
{
    for index in 0..headers.section_count() {
        let section = headers.section(index);
        if section.raw_size != 0 && (section.raw_offset as usize) < offset {
            return false;
        }
    }
    true
}

/// The end of all sections in memory.
fn last_address(headers: &Headers) -> u64
    ensures value { result ≡ address_before headers.now (section_count headers.now) }
    ensures small { result < 2 ^ 33 }
{
    let mut last = 0;
    for index in 0..headers.section_count() {
        last = headers.section(index).address_end().max(last);
    }
    last
}

/// The offset of the root in the last section, if that can be longer and the offset is below 2^32.
fn extended(headers: &Headers, header: &CliHeader) -> Option<u32>
    requires { header.now.place ≤ 2 ^ 30 }
    ensures section { IfSome result (IsLongerSection headers.now header.now) }
    ensures none { IfNone result ((within : ℕ) → IsLongerSection headers.now header.now within → 2 ^ 32 ≤ within) }
{
    if headers.section_count() == 0 {
        return None;
    }
    let section = headers.last_section();
    let end = section.raw_end() as usize;
    if !are_before(headers, headers.section_count() - 1) || !ends_file(headers, end) {
        return None;
    }
    let within = aligned(ROOT_ALIGNMENT, section.full_size() as u64);
    if end < header.place + CLI_HEADER || within > u32::MAX as u64 {
        return None;
    }
    Some(within as u32)
}

/// Whether all sections before the one at an index end before it in memory, and not after it in the file.
fn are_before(headers: &Headers, index: usize) -> bool
    requires { index < section_count headers.now }
    ensures { IsTrue result ↔ ((other : ℕ) → other < index → (address_end headers.now other ≤ virtual_address headers.now index)
        × (raw_end headers.now other ≤ raw_end headers.now index)) }
{
    let last = headers.section(index);
    for other in 0..index {
        let section = headers.section(other);
        if section.address_end() > last.virtual_address as u64
            || section.raw_end() > last.raw_end()
        {
            return false;
        }
    }
    true
}

/// Whether the file ends at an offset, but for a certificate (II.25.2.3.3).
fn ends_file(headers: &Headers, end: usize) -> bool
    requires { end < 2 ^ 33 }
    ensures { IsTrue result ↔ EndsFile headers.now end }
{
    let len = headers.file().len();
    let directory = headers.certificate_offset();
    let certificate = headers.number(directory) as usize;
    let size = headers.number(directory + 4) as usize;
    end == len || end < len && end == certificate && len <= end + size
}

/// The slot, if its numbers fit their fields and the result is short enough.
fn in_range(file: &Opened, len: usize, slot: Slot) -> Result<Slot, EmbedError>
    requires opened { IsOpened file.now.headers file.now }
    requires small { len ≤ 2 ^ 30 }
    requires longer { file.now.header.metadata.size < len }
    requires slot { IsSlot file.now.headers len file.now.header (source_of file.now.view) slot }
    requires alignments { IsAligned file.now.headers }
    ensures fits { IfOk result (FitsAt file.now.headers len file.now.header (source_of file.now.view)) }
    ensures misfit { IfErr result (IsMisfit file.now.headers len file.now.header (source_of file.now.view)) }
{
    let headers = &file.headers;
    let target = target_of(headers, &file.header, len, slot);
    if target.len > BYTE_LIMIT as u64 {
        return Err(EmbedError::TooLong);
    }
    let memory = aligned(
        headers.field(Field::SectionAlignment),
        target.address + len as u64,
    );
    let initialized = headers.field(Field::InitializedDataSize) as u64 + target.raw_size;
    if memory > u32::MAX as u64 || initialized > u32::MAX as u64 {
        return Err(EmbedError::NoRoom);
    }
    Ok(slot)
}

/// What a slot for a root of this length comes to.
pub fn target_of(headers: &Headers, header: &CliHeader, len: usize, slot: Slot) -> Target
    requires small { len ≤ 2 ^ 30 }
    requires slot { HasSlot headers.now slot }
    ensures value { result ≡ target_of headers.now header.now len slot }
    ensures address { result.address < 2 ^ 33 }
{
    let kept = headers.file().len() as u64;
    match slot {
        Slot::Reused => Target {
            kept,
            len: kept,
            start: header.root.start as u64,
            address: header.metadata.rva as u64,
            raw_size: 0,
        },
        Slot::Appended { address, offset } => {
            let raw_size = aligned(headers.field(Field::FileAlignment), len as u64);
            Target {
                kept,
                len: offset as u64 + raw_size,
                start: offset as u64,
                address: address as u64,
                raw_size,
            }
        }
        Slot::Extended { within } => {
            let section = headers.last_section();
            let raw_size = aligned(
                headers.field(Field::FileAlignment),
                within as u64 + len as u64,
            );
            Target {
                kept: section.raw_end(),
                len: section.raw_offset as u64 + raw_size,
                start: section.raw_offset as u64 + within as u64,
                address: section.virtual_address as u64 + within as u64,
                raw_size,
            }
        }
    }
}
