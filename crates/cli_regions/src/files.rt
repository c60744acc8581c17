//! Looks at the PE headers of a file, at its sections, and at its CLI header (II.25).
ghost use Rattle.std.specs.Prelude.{◌≡◌, ◌≤◌, ◌+◌, ◌==◌, length, map, position};
ghost use Rattle.std.specs.List.{flat_map, range_with_len};
ghost use Rattle.packed.specs.Rule.{AllHold};
ghost use Rattle.root.specs.Fields.{before_nul};
ghost use Rattle.pe.specs.Headers.{directory_offset, image_of, section_count, sections_offset};
ghost use Rattle.pe.specs.Rules.{rules_of_image};
ghost use Rattle.cli_regions.specs.Files.{cli_regions, directories_offset, directories_regions, image_regions, named_regions, optional_fields, section_offset};
ghost use Rattle.cli_regions.specs.Kept.{HasHeaders, Adds, part_regions};
ghost use Rattle.cli_regions.specs.Regions.{seen_field};

use crate::fields::{
    CLI_HEADER, DIRECTORIES, DIRECTORY_FIELDS, FILE_HEADER, Field, PE32, PE32_PLUS, SECTION_HEADER,
    find_fields, find_header,
};
use crate::searches::{Name, Part, Search};
use cli_header::{CliHeader, DataDirectory};
use packed::{u16_at, u32_at};
use pe::Pe;

/// The size of the MS-DOS header, in bytes (II.25.2.1).
const DOS_HEADER_SIZE: u64 = 64;

/// The size of `MZ`, in bytes.
const DOS_SIGNATURE_SIZE: u64 = 2;

/// The offset of lfanew in the MS-DOS header.
const LFANEW: usize = 0x3C;

/// The size of lfanew, in bytes.
const LFANEW_SIZE: u64 = 4;

/// The size of the PE signature, in bytes.
const SIGNATURE_SIZE: u64 = 4;

/// The size of the PE file header, in bytes (II.25.2.2).
const FILE_HEADER_SIZE: u64 = 20;

/// The offset of SizeOfOptionalHeader, relative to the PE signature.
const OPTIONAL_HEADER_SIZE: usize = 20;

/// The offset of the optional header, relative to the PE signature (II.25.2.3).
const OPTIONAL_HEADER: usize = 24;

/// Magic of PE32+.
const MAGIC_OF_PE32_PLUS: u16 = 0x20B;

/// The number of bytes of the data directories before that of the CLI header (II.25.2.3.3).
const BEFORE_CLI_DIRECTORY: usize = 112;

/// The size of NumberOfRvaAndSizes, in bytes. The data directories follow it.
const DIRECTORY_COUNT_SIZE: usize = 4;

/// The size of a data directory, in bytes.
const DIRECTORY_SIZE: usize = 8;

/// The number of data directories that the standard names.
const NAMED_DIRECTORIES: usize = 16;

/// The offset of NumberOfSections, relative to the PE signature (II.25.2.2).
const SECTION_COUNT: usize = 6;

/// The size of a section header, in bytes (II.25.3).
const SECTION_HEADER_SIZE: usize = 40;

/// The size of the name in a section header, in bytes.
const NAME_SIZE: usize = 8;

/// The offset of SizeOfRawData in a section header.
const SIZE_OF_RAW_DATA: usize = 16;

/// The offset of PointerToRawData in a section header.
const POINTER_TO_RAW_DATA: usize = 20;

/// The size of the CLI header, in bytes (II.25.3.3).
const CLI_HEADER_SIZE: u64 = 72;

/// The index of the first NUL.
fn nul_in(bytes: &[u8]) -> Option<usize>
    ensures { result ≡ position (λ byte. byte == 0) bytes.now }
{
    bytes.iter().position(|byte| *byte == 0)
}

/// The bytes before the first NUL, or all if there is none.
fn before_nul(bytes: &[u8]) -> &[u8]
    ensures { result.now ≡ before_nul bytes.now }
{
    bytes.split_at(nul_in(bytes).unwrap_or(bytes.len())).0
}

/// Looks at a part of a section: its index counts from 0, and its header is at offset `header`. Its bytes end with the file at
/// the latest.
fn find_part<'a>(file: &'a [u8], part: Part, index: usize, header: usize, found: &mut Search<'a>)
    requires start { header ≡ section_offset file.now index }
    requires within { header + 40 ≤ length file.now }
    requires small { length file.now ≤ 0x40000000 }
    ensures { Adds found.old found.new (part_regions part file.now index) }
{
    let (_, tail) = file.split_at(header);
    let (name, _) = tail.split_at(NAME_SIZE);
    let name = Name::Section(index as u64 + 1, before_nul(name));
    match part {
        Part::Header => {
            let (start, size) = (header as u64, SECTION_HEADER_SIZE as u64);
            let word = "section header";
            find_header(word, name, start, size, &SECTION_HEADER, found);
        }
        Part::Bytes => {
            let size = u32_at(file, header + SIZE_OF_RAW_DATA);
            let start = u32_at(file, header + POINTER_TO_RAW_DATA);
            let left = file.len().saturating_sub(start as usize);
            let count = left.min(size as usize);
            found.look(start as u64, count as u64, "section", name);
        }
    }
}

/// Looks at a part of each of `count` sections. The first section header is at offset `start`.
fn find_sections<'a>(file: &'a [u8], part: Part, count: usize, start: usize, found: &mut Search<'a>)
    requires headers { HasHeaders file.now }
    requires count { count ≡ section_count file.now }
    requires start { start ≡ sections_offset file.now }
    ensures { Adds found.old found.new (flat_map (part_regions part file.now) (range_with_len 0 (section_count file.now))) }
{
    for index in 0..count {
        let header = start + SECTION_HEADER_SIZE * index;
        find_part(file, part, index, header, found);
    }
}

/// The fields of the optional header before the data directories, by Magic.
fn optional_fields(magic: u16) -> &'static [Field]
    ensures fields { map seen_field result.now ≡ optional_fields magic }
    ensures few { length result.now ≤ 32 }
{
    if magic == MAGIC_OF_PE32_PLUS {
        &PE32_PLUS
    } else {
        &PE32
    }
}

/// Looks at the data directories and their fields (II.25.2.3.3). The first is at offset `start`, and the first section header at
/// offset `sections`.
fn find_directories(file: &[u8], start: usize, sections: usize, found: &mut Search<'_>)
    requires headers { HasHeaders file.now }
    requires directories { start ≡ directories_offset file.now }
    requires sections { sections ≡ sections_offset file.now }
    ensures { Adds found.old found.new (directories_regions file.now) }
{
    let counted = u32_at(file, start - DIRECTORY_COUNT_SIZE);
    let room = (sections - start) / DIRECTORY_SIZE;
    let whole = room.min(counted as usize);
    let named = whole.min(NAMED_DIRECTORIES);
    let (directories, _) = DIRECTORIES.split_at(named);
    let (fields, _) = DIRECTORY_FIELDS.split_at(2 * named);
    find_fields("data directory", start as u64, directories, found);
    find_fields("data directory", start as u64, fields, found);
}

/// Looks at the headers and sections of an image. The data directory of the CLI header is at offset `cli_directory`.
fn find_image<'a>(file: &'a [u8], cli_directory: usize, found: &mut Search<'a>)
    requires headers { HasHeaders file.now }
    requires directory { cli_directory ≡ directory_offset file.now }
    ensures { Adds found.old found.new (image_regions file.now) }
{
    let word = "ms-dos header";
    found.look(0, DOS_HEADER_SIZE, word, Name::Empty);
    found.look(0, DOS_SIGNATURE_SIZE, word, Name::Plain("Signature"));
    found.look_field(LFANEW as u64, LFANEW_SIZE, word, Name::Plain("lfanew"));

    let signature = u32_at(file, LFANEW) as usize;
    let start = signature as u64;
    found.look(start, SIGNATURE_SIZE, "pe signature", Name::Empty);
    let (start, size) = (start + SIGNATURE_SIZE, FILE_HEADER_SIZE);
    let word = "pe file header";
    find_header(word, Name::Empty, start, size, &FILE_HEADER, found);

    let optional_size = u16_at(file, signature + OPTIONAL_HEADER_SIZE) as usize;
    let start = signature + OPTIONAL_HEADER;
    let fields = optional_fields(u16_at(file, start));
    let word = "optional header";
    let size = optional_size as u64;
    find_header(word, Name::Empty, start as u64, size, fields, found);

    let sections = start + optional_size;
    find_directories(file, cli_directory - BEFORE_CLI_DIRECTORY, sections, found);
    let count = u16_at(file, signature + SECTION_COUNT) as usize;
    find_sections(file, Part::Header, count, sections, found);
    find_sections(file, Part::Bytes, count, sections, found);
}

/// Looks at the PE headers, their fields, and the sections (II.25.2, II.25.3). Its time is linear in the number of sections.
pub fn find_pe<'a>(pe: &Pe<'a>, found: &mut Search<'a>)
    requires rules { AllHold (rules_of_image pe.now.bytes) }
    requires image { pe.now ≡ image_of pe.now.bytes }
    ensures { Adds found.old found.new (image_regions pe.now.bytes) }
{
    find_image(pe.bytes(), pe.cli_directory_offset(), found);
}

/// Looks at bytes that the CLI header refers to, if the file has them.
fn find_named(pe: &Pe<'_>, what: &'static str, directory: DataDirectory, found: &mut Search<'_>)
    ensures { Adds found.old found.new (named_regions pe.now what.now directory) }
{
    if let Some(range) = pe.range(directory.rva, directory.size) {
        found.look(range.start as u64, directory.size as u64, what, Name::Empty);
    }
}

/// Looks at the CLI header, its fields, and what it refers to except the metadata root (II.25.3.3).
pub fn find_cli(pe: &Pe<'_>, of: &CliHeader, found: &mut Search<'_>)
    requires { of.now.place ≤ 0x40000000 }
    ensures { Adds found.old found.new (cli_regions pe.now of.now) }
{
    let (word, name) = ("cli header", Name::Empty);
    let start = of.place as u64;
    find_header(word, name, start, CLI_HEADER_SIZE, &CLI_HEADER, found);
    find_named(pe, "resources", of.resources, found);
    find_named(pe, "strong name signature", of.strong_name_signature, found);
    find_named(pe, "code manager table", of.code_manager_table, found);
    find_named(pe, "vtable fixups", of.vtable_fixups, found);
    let jumps = of.export_address_table_jumps;
    find_named(pe, "export address table jumps", jumps, found);
    find_named(pe, "managed native header", of.managed_native_header, found);
}
