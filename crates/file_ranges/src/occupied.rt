//! Whether the range of the old metadata has nothing else in it.
ghost use Rattle.std.specs.Prelude.{◌<◌, ◌≤◌, ◌^◌, ◌+◌, ◌*◌, ◌↔◌, ℕ, length, IsTrue, IfNone, IfSome};
ghost use Rattle.pe.specs.Headers.{optional_header_size, section_count, wider};
ghost use Rattle.table_schema.specs.declared.table.TableId.TheVariants.{MethodDef};
ghost use Rattle.file_ranges.specs.Occupied.{HasMetadata, IsLowest, IsCodeApart, AreBodiesApart, AreSectionsApart, IsSectionApart, AreDirectoriesApart, IsDirectoryApart, IsFree};

use crate::addresses::{are_apart, are_named_apart, is_apart};
use crate::bodies::ends_within;
use crate::field_data::is_data_apart;
use crate::headers::{CERTIFICATE, Headers};
use cli_header::CliHeader;
use opening::{Source, TableId};

/// The size of a CLI header in bytes (II.25.3.3).
const CLI_HEADER: u64 = 72;

/// The largest number of data directories (II.25.2.3.3).
const DIRECTORIES: usize = 16;

/// The bits of ImplFlags that say what the code is; 0 is CIL (II.23.1.10).
const CODE_TYPE: u32 = 4;

/// Whether the range that MetaData names has nothing but the metadata in it.
pub fn is_free(headers: &Headers, header: &CliHeader, source: &Source) -> bool
    requires root { header.now.root.start + header.now.metadata.size ≤ length headers.now }
    requires within { header.now.place + 72 ≤ length headers.now }
    ensures { IsTrue result ↔ IsFree header.now headers.now source.now.source }
{
    let file = headers.file();
    let Some(lowest) = lowest_address(headers, header) else {
        return false;
    };
    let root = header.root.start as u64;
    let size = header.metadata.size as u64;
    if !are_apart(header.place as u64, CLI_HEADER, root, size) {
        return false;
    }
    if !are_named_apart(header) {
        return false;
    }
    if !are_directories_apart(headers, header) {
        return false;
    }
    if !are_sections_apart(headers, header) {
        return false;
    }
    if !are_bodies_apart(file, header, source, lowest) {
        return false;
    }
    is_data_apart(header, source)
}

/// The address of the first section that has all of the metadata (II.25.3).
fn lowest_address(headers: &Headers, header: &CliHeader) -> Option<u32>
    requires { header.now.root.start ≤ 2 ^ 30 }
    ensures sound { IfSome result (IsLowest header.now headers.now) }
    ensures none { IfNone result ((lowest : ℕ) → ¬ IsLowest header.now headers.now lowest) }
{
    for index in 0..headers.section_count() {
        if has_metadata(headers, header, index) {
            return Some(headers.section(index).virtual_address);
        }
    }
    None
}

/// Whether a section has all of the metadata, at its address and its file offset (II.25.3).
fn has_metadata(headers: &Headers, header: &CliHeader, index: usize) -> bool
    requires small { header.now.root.start ≤ 2 ^ 30 }
    requires index { index < section_count headers.now }
    ensures { IsTrue result ↔ HasMetadata header.now headers.now index }
{
    let section = headers.section(index);
    let rva = header.metadata.rva as u64;
    let lowest = section.virtual_address as u64;
    lowest <= rva
        && rva + header.metadata.size as u64 <= lowest + section.raw_size as u64
        && lowest + header.root.start as u64 == rva + section.raw_offset as u64
}

/// Whether the data directories name nothing of the metadata (II.25.2.3.3).
fn are_directories_apart(headers: &Headers, header: &CliHeader) -> bool
    ensures { IsTrue result ↔ AreDirectoriesApart header.now headers.now }
{
    for index in 0..headers.directory_count().min(DIRECTORIES) {
        if !is_directory_apart(headers, header, index) {
            return false;
        }
    }
    true
}

/// Whether a data directory names nothing of the metadata. The Certificate Table names no memory.
fn is_directory_apart(headers: &Headers, header: &CliHeader, index: usize) -> bool
    requires { 104 + wider headers.now + 8 * index ≤ optional_header_size headers.now }
    ensures { IsTrue result ↔ IsDirectoryApart header.now headers.now index }
{
    let offset = headers.directory_offset(index);
    let rva = headers.number(offset);
    let size = headers.number(offset + 4);
    index == CERTIFICATE || is_apart(header, rva, size)
}

/// Whether no section puts the metadata's part of the file at another address (II.25.3).
fn are_sections_apart(headers: &Headers, header: &CliHeader) -> bool
    requires { header.now.root.start ≤ 2 ^ 30 }
    ensures { IsTrue result ↔ AreSectionsApart header.now headers.now }
{
    for index in 0..headers.section_count() {
        if !is_section_apart(headers, header, index) {
            return false;
        }
    }
    true
}

/// Whether a section has none of the metadata's part of the file, or puts it at the same address.
fn is_section_apart(headers: &Headers, header: &CliHeader, index: usize) -> bool
    requires small { header.now.root.start ≤ 2 ^ 30 }
    requires index { index < section_count headers.now }
    ensures { IsTrue result ↔ IsSectionApart header.now headers.now index }
{
    let section = headers.section(index);
    let start = section.raw_offset as u64;
    let root = header.root.start as u64;
    let is_same = section.virtual_address as u64 + root == header.metadata.rva as u64 + start;
    is_same
        || are_apart(
            start,
            section.raw_size as u64,
            root,
            header.metadata.size as u64,
        )
}

/// Whether the bodies of all methods are apart from the metadata (II.22.26, II.25.4).
fn are_bodies_apart(file: &[u8], header: &CliHeader, source: &Source, lowest: u32) -> bool
    requires small { length file.now ≤ 2 ^ 30 }
    requires root { header.now.root.start + header.now.metadata.size ≤ length file.now }
    requires lowest { header.now.metadata.rva ≤ lowest + header.now.root.start }
    ensures { IsTrue result ↔ AreBodiesApart header.now file.now source.now.source lowest }
{
    for row in 1..source.count(TableId::MethodDef) + 1 {
        let rva = source.number(TableId::MethodDef, row, 0);
        let impl_flags = source.number(TableId::MethodDef, row, 1);
        if !is_code_apart(file, header, lowest, rva, impl_flags) {
            return false;
        }
    }
    true
}

/// Whether the code at an address ends before the metadata or begins after it (II.25.4).
fn is_code_apart(file: &[u8], header: &CliHeader, lowest: u32, rva: u32, impl_flags: u32) -> bool
    requires small { length file.now ≤ 2 ^ 30 }
    requires root { header.now.root.start + header.now.metadata.size ≤ length file.now }
    requires lowest { header.now.metadata.rva ≤ lowest + header.now.root.start }
    ensures { IsTrue result ↔ IsCodeApart header.now file.now lowest rva impl_flags }
{
    let metadata = header.metadata;
    if rva < lowest || metadata.rva as u64 + metadata.size as u64 <= rva as u64 {
        return true;
    }
    if rva >= metadata.rva {
        return false;
    }
    let room = (metadata.rva - rva) as usize;
    let (before, _) = file.split_at(header.root.start);
    let (_, body) = before.split_at(header.root.start - room);
    impl_flags % CODE_TYPE != 0 || ends_within(body)
}
