//! Ranges of bytes, and whether they are apart from the metadata.
ghost use Rattle.std.specs.Prelude.{◌↔◌, ◌<◌, ◌^◌, IsTrue};
ghost use Rattle.file_ranges.specs.Occupied.{AreApart, IsApart, AreAllApart, named};

use cli_header::{CliHeader, DataDirectory};

/// Whether two ranges have no byte in common. Each is given by its begin and its size.
pub fn are_apart(start: u64, size: u64, other: u64, other_size: u64) -> bool
    requires first { start < 2 ^ 32 }
    requires size { size < 2 ^ 32 }
    requires other { other < 2 ^ 32 }
    requires other_size { other_size < 2 ^ 32 }
    ensures { IsTrue result ↔ AreApart start size other other_size }
{
    size == 0 || start + size <= other || other + other_size <= start
}

/// Whether these bytes in memory are not of the metadata that the CLI header names.
pub fn is_apart(header: &CliHeader, rva: u32, size: u32) -> bool
    ensures { IsTrue result ↔ IsApart header.now rva size }
{
    let metadata = header.metadata;
    are_apart(
        rva as u64,
        size as u64,
        metadata.rva as u64,
        metadata.size as u64,
    )
}

/// Whether what a directory names is not of the metadata.
fn is_directory_apart(header: &CliHeader, directory: DataDirectory) -> bool
    ensures { IsTrue result ↔ IsApart header.now directory.rva directory.size }
{
    is_apart(header, directory.rva, directory.size)
}

/// Whether all else that the CLI header names is apart from the metadata (II.25.3.3).
pub fn are_named_apart(header: &CliHeader) -> bool
    ensures { IsTrue result ↔ AreAllApart header.now (named header.now) }
{
    is_directory_apart(header, header.resources)
        && is_directory_apart(header, header.strong_name_signature)
        && is_directory_apart(header, header.code_manager_table)
        && is_directory_apart(header, header.vtable_fixups)
        && is_directory_apart(header, header.export_address_table_jumps)
        && is_directory_apart(header, header.managed_native_header)
}
