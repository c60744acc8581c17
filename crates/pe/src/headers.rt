ghost use Rattle.std.specs.Prelude.{◌≡◌, ◌+◌, ◌≤◌, length, IfOk, IfErr};
ghost use Rattle.packed.specs.Rule.{Reports};
ghost use Rattle.packed.specs.Limit.{byte_limit};
ghost use Rattle.pe.specs.Rules.{rules_of_dos_header, rules_of_signature, rules_of_optional_header, rules_of_sections};
ghost use Rattle.pe.specs.Headers.{lfanew, section_count, sections_offset, directory_offset, optional_header_size};

use crate::section::SECTION_HEADER_SIZE;
use packed::{BYTE_LIMIT, Fault, FaultCode, u16_at, u32_at};

/// The offset of lfanew in the MS-DOS header.
const LFANEW: usize = 0x3C;

/// The offset of Number of Sections, relative to the PE signature.
const SECTION_COUNT: usize = 6;

/// The offset of Optional Header Size, relative to the PE signature.
const OPTIONAL_HEADER_SIZE: usize = 20;

/// The offset of the optional header, relative to the PE signature.
pub const OPTIONAL_HEADER: usize = 24;

/// The offset of Number of Data Directories in PE32, relative to the PE signature.
const DIRECTORY_COUNT: usize = 116;

/// The offset of the CLI header's data directory in PE32, relative to the PE signature.
const CLI_DIRECTORY: usize = 232;

/// In PE32+, these two are at offsets that are larger by this number of bytes.
const PE32_PLUS_WIDER: usize = 16;

/// Magic of PE32.
const PE32: u16 = 0x10B;

/// Magic of PE32+.
const PE32_PLUS: u16 = 0x20B;

/// The least size of a PE32 optional header in bytes: up to the end of the fifteenth data directory.
const PE32_SIZE: usize = 216;

/// The least size of a PE32+ optional header in bytes.
const PE32_PLUS_SIZE: usize = 232;

/// The least number of data directories: the CLI header's is the fifteenth.
const DIRECTORIES: u32 = 15;

/// Reads the MS-DOS header (II.25.2.1). Returns the offset of the PE signature.
pub fn read_dos_header(bytes: &[u8]) -> Result<usize, Fault>
    ensures reports { Reports (rules_of_dos_header bytes.now) result }
    ensures lfanew { IfOk result (λ offset. offset ≡ lfanew bytes.now) }
    ensures small { IfOk result (λ _. length bytes.now ≤ byte_limit) }
    ensures room { IfOk result (λ _. 64 ≤ length bytes.now) }
    ensures within { IfErr result (λ fault. fault.offset ≤ length bytes.now) }
{
    if bytes.len() > BYTE_LIMIT {
        return Err(Fault::new(FaultCode::TooLong, 0));
    }
    if bytes.len() < LFANEW + 4 {
        return Err(Fault::new(FaultCode::DosHeader, 0));
    }
    let (signature, _) = bytes.split_at(2);
    if signature != b"MZ".as_slice() {
        return Err(Fault::new(FaultCode::DosHeader, 0));
    }
    Ok(u32_at(bytes, LFANEW) as usize)
}

/// The fields of the PE file header that are needed to find the headers after it (II.25.2.2).
#[derive(Clone, Copy)]
pub struct FileHeader {
    /// The number of section headers.
    pub section_count: usize,
    /// The size of the optional header, in bytes.
    pub optional_header_size: usize,
}

/// Reads the PE file header (II.25.2.2). The PE signature must be at offset `offset`.
pub fn read_file_header(bytes: &[u8], offset: usize) -> Result<FileHeader, Fault>
    requires small { length bytes.now ≤ byte_limit }
    requires header { 64 ≤ length bytes.now }
    requires offset { offset ≡ lfanew bytes.now }
    ensures reports { Reports (rules_of_signature bytes.now) result }
    ensures room { IfOk result (λ _. offset + 24 ≤ length bytes.now) }
    ensures section_count { IfOk result (λ header. header.section_count ≡ section_count bytes.now) }
    ensures size { IfOk result (λ header. header.optional_header_size ≡ optional_header_size bytes.now) }
    ensures within { IfErr result (λ fault. fault.offset ≤ length bytes.now) }
{
    if bytes.len() < offset || bytes.len() - offset < OPTIONAL_HEADER {
        return Err(Fault::new(FaultCode::PeSignature, LFANEW as u64));
    }
    let (_, tail) = bytes.split_at(offset);
    let (signature, _) = tail.split_at(4);
    if signature != b"PE\0\0".as_slice() {
        return Err(Fault::new(FaultCode::PeSignature, LFANEW as u64));
    }
    Ok(FileHeader {
        section_count: u16_at(bytes, offset + SECTION_COUNT) as usize,
        optional_header_size: u16_at(bytes, offset + OPTIONAL_HEADER_SIZE) as usize,
    })
}

/// Reads the optional header of `size` bytes (II.25.2.3). Returns the offset of the CLI header's data directory.
pub fn read_optional_header(bytes: &[u8], offset: usize, size: usize) -> Result<usize, Fault>
    requires small { length bytes.now ≤ byte_limit }
    requires offset { offset ≡ lfanew bytes.now }
    requires size { size ≡ optional_header_size bytes.now }
    requires room { offset + 24 ≤ length bytes.now }
    ensures reports { Reports (rules_of_optional_header bytes.now) result }
    ensures directory { IfOk result (λ directory. directory ≡ directory_offset bytes.now) }
    ensures room { IfOk result (λ directory. directory + 8 ≤ offset + 24 + size) }
    ensures end { IfOk result (λ _. offset + 24 + size ≤ length bytes.now) }
    ensures within { IfErr result (λ fault. fault.offset ≤ length bytes.now) }
{
    let size_offset = (offset + OPTIONAL_HEADER_SIZE) as u64;
    let start = offset + OPTIONAL_HEADER;
    if size < PE32_SIZE || bytes.len() - start < size {
        return Err(Fault::new(FaultCode::OptionalHeader, size_offset));
    }
    let magic = u16_at(bytes, start);
    if magic == PE32_PLUS && size < PE32_PLUS_SIZE {
        return Err(Fault::new(FaultCode::Pe32PlusSize, size_offset));
    }
    if magic != PE32 && magic != PE32_PLUS {
        return Err(Fault::new(FaultCode::Magic, start as u64));
    }
    let wider = if magic == PE32_PLUS {
        PE32_PLUS_WIDER
    } else {
        0
    };
    let count_offset = offset + DIRECTORY_COUNT + wider;
    if u32_at(bytes, count_offset) < DIRECTORIES {
        return Err(Fault::new(FaultCode::Directories, count_offset as u64));
    }
    Ok(offset + CLI_DIRECTORY + wider)
}

/// Checks that `count` section headers, the first at offset `start`, end within the file (II.25.3).
pub fn check_sections(bytes: &[u8], offset: usize, start: usize, count: usize) -> Result<(), Fault>
    requires small { length bytes.now ≤ byte_limit }
    requires offset { offset ≡ lfanew bytes.now }
    requires start { start ≡ sections_offset bytes.now }
    requires count { count ≡ section_count bytes.now }
    requires within { start ≤ length bytes.now }
    ensures reports { Reports (rules_of_sections bytes.now) result }
    ensures within { IfErr result (λ fault. fault.offset ≤ length bytes.now) }
{
    if (bytes.len() - start) / SECTION_HEADER_SIZE < count {
        return Err(Fault::new(FaultCode::Sections, (offset + SECTION_COUNT) as u64));
    }
    Ok(())
}
