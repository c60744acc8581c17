//! The headers of a file: the names and the sizes in bytes of their fields, in order. Names are those of the standard. Fields
//! of the PE headers that it writes in several words have the names of Microsoft's PE format.
ghost use Rattle.std.specs.Prelude.{◌≤◌, length, map};
ghost use Rattle.cli_regions.specs.Kept.{Adds, name_text};
ghost use Rattle.cli_regions.specs.Regions.{fields_from, header_regions, seen_field};

use crate::searches::{Name, Search};

/// A field of a header: its name in the standard, and its number of bytes.
pub(crate) type Field = (&'static str, u32);

/// Fields by their names and sizes.
macro_rules! fields {
    ($($name:literal $size:literal;)*) => {
        [$(($name, $size)),*]
    };
}

/// The PE file header (II.25.2.2).
pub(crate) const FILE_HEADER: [Field; 7] = fields![
    "Machine" 2; "NumberOfSections" 2; "TimeDateStamp" 4; "PointerToSymbolTable" 4;
    "NumberOfSymbols" 4; "SizeOfOptionalHeader" 2; "Characteristics" 2;
];

/// The optional header before its data directories, with a BaseOfData and addresses of these sizes: standard fields
/// (II.25.2.3.1) and NT-specific ones (II.25.2.3.2).
macro_rules! optional_header {
    ($base_size:literal $address_size:literal) => {
        fields![
            "Magic" 2; "MajorLinkerVersion" 1; "MinorLinkerVersion" 1; "SizeOfCode" 4;
            "SizeOfInitializedData" 4; "SizeOfUninitializedData" 4; "AddressOfEntryPoint" 4;
            "BaseOfCode" 4; "BaseOfData" $base_size; "ImageBase" $address_size;
            "SectionAlignment" 4; "FileAlignment" 4; "MajorOperatingSystemVersion" 2;
            "MinorOperatingSystemVersion" 2; "MajorImageVersion" 2; "MinorImageVersion" 2;
            "MajorSubsystemVersion" 2; "MinorSubsystemVersion" 2; "Win32VersionValue" 4;
            "SizeOfImage" 4; "SizeOfHeaders" 4; "CheckSum" 4; "Subsystem" 2; "DllCharacteristics" 2;
            "SizeOfStackReserve" $address_size; "SizeOfStackCommit" $address_size;
            "SizeOfHeapReserve" $address_size; "SizeOfHeapCommit" $address_size; "LoaderFlags" 4;
            "NumberOfRvaAndSizes" 4;
        ]
    };
}

/// The optional header of PE32 before its data directories.
pub(crate) const PE32: [Field; 30] = optional_header!(4 4);

/// The optional header of PE32+ before its data directories. It has no BaseOfData.
pub(crate) const PE32_PLUS: [Field; 30] = optional_header!(0 8);

/// The data directories, by number and name (II.25.2.3.3).
pub(crate) const DIRECTORIES: [Field; 16] = fields![
    "1 Export Table" 8; "2 Import Table" 8; "3 Resource Table" 8; "4 Exception Table" 8;
    "5 Certificate Table" 8; "6 Base Relocation Table" 8; "7 Debug" 8; "8 Copyright" 8;
    "9 Global Ptr" 8; "10 TLS Table" 8; "11 Load Config Table" 8; "12 Bound Import" 8; "13 IAT" 8;
    "14 Delay Import Descriptor" 8; "15 CLI Header" 8; "16 Reserved" 8;
];

/// The fields of the data directories.
pub(crate) const DIRECTORY_FIELDS: [Field; 32] = fields![
    "RVA" 4; "Size" 4; "RVA" 4; "Size" 4; "RVA" 4; "Size" 4; "RVA" 4; "Size" 4; "RVA" 4; "Size" 4;
    "RVA" 4; "Size" 4; "RVA" 4; "Size" 4; "RVA" 4; "Size" 4; "RVA" 4; "Size" 4; "RVA" 4; "Size" 4;
    "RVA" 4; "Size" 4; "RVA" 4; "Size" 4; "RVA" 4; "Size" 4; "RVA" 4; "Size" 4; "RVA" 4; "Size" 4;
    "RVA" 4; "Size" 4;
];

/// A section header (II.25.3).
pub(crate) const SECTION_HEADER: [Field; 10] = fields![
    "Name" 8; "VirtualSize" 4; "VirtualAddress" 4; "SizeOfRawData" 4; "PointerToRawData" 4;
    "PointerToRelocations" 4; "PointerToLinenumbers" 4; "NumberOfRelocations" 2;
    "NumberOfLinenumbers" 2; "Characteristics" 4;
];

/// The CLI header (II.25.3.3).
pub(crate) const CLI_HEADER: [Field; 12] = fields![
    "Cb" 4; "MajorRuntimeVersion" 2; "MinorRuntimeVersion" 2; "MetaData" 8; "Flags" 4;
    "EntryPointToken" 4; "Resources" 8; "StrongNameSignature" 8; "CodeManagerTable" 8;
    "VTableFixups" 8; "ExportAddressTableJumps" 8; "ManagedNativeHeader" 8;
];

/// The metadata root before its version (II.24.2.1).
pub(crate) const BEFORE_VERSION: [Field; 5] = fields![
    "Signature" 4; "MajorVersion" 2; "MinorVersion" 2; "Reserved" 4; "Length" 4;
];

/// The metadata root after its version, before its stream headers.
pub(crate) const AFTER_VERSION: [Field; 2] = fields!["Flags" 2; "Streams" 2;];

/// A stream header before its name (II.24.2.2).
pub(crate) const BEFORE_NAME: [Field; 2] = fields!["Offset" 4; "Size" 4;];

/// The table stream before its row counts (II.24.2.6).
pub(crate) const TABLE_STREAM: [Field; 7] = fields![
    "Reserved" 4; "MajorVersion" 1; "MinorVersion" 1; "HeapSizes" 1; "Reserved" 1; "Valid" 8;
    "Sorted" 8;
];

/// Looks at fields that follow one another, the first at offset `start`.
pub(crate) fn find_fields(word: &'static str, start: u64, fields: &[Field], found: &mut Search<'_>)
    requires start { start ≤ 0x2000000000 }
    requires few { length fields.now ≤ 32 }
    ensures { Adds found.old found.new (fields_from word.now start (map seen_field fields.now)) }
{
    let mut next = start;
    for field in fields {
        let (name, size) = *field;
        found.look_field(next, size as u64, word, Name::Plain(name));
        next += size as u64;
    }
}

/// Looks at a header and its fields.
pub(crate) fn find_header<'a>(
    word: &'static str,
    name: Name<'a>,
    start: u64,
    size: u64,
    fields: &[Field],
    found: &mut Search<'a>,
)
    requires start { start ≤ 0x2000000000 }
    requires few { length fields.now ≤ 32 }
    ensures { Adds found.old found.new (header_regions word.now (name_text name.entry) start size (map seen_field fields.now)) }
{
    found.look(start, size, word, name);
    find_fields(word, start, fields, found);
}
