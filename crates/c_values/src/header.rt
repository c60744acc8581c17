ghost use Rattle.std.specs.Prelude.{◌≡◌};
ghost use Rattle.c_values.specs.Headers.{directory_of, header_of};

use cli_header::{CliHeader, DataDirectory};

/// An address and the number of bytes there, as in the headers of a file (II.25.2.3.3).
#[repr(C)]
#[derive(Clone, Copy)]
pub struct ClimDirectory {
    /// The relative virtual address of the first byte.
    pub rva: u32,
    /// The number of bytes.
    pub size: u32,
}

/// The CLI header of a file (II.25.3.3).
#[repr(C)]
#[derive(Clone, Copy)]
pub struct ClimHeader {
    /// The offset of the header in the file.
    pub offset: usize,
    /// The offset of the metadata root in the file.
    pub root_start: usize,
    /// The offset of the end of the metadata root in the file.
    pub root_end: usize,
    /// The size of the header in bytes, as it says: at least 72.
    pub cb: u32,
    /// The minimum version of the runtime that the image needs.
    pub major_runtime_version: u16,
    /// The minor part of that version.
    pub minor_runtime_version: u16,
    /// The metadata root.
    pub metadata: ClimDirectory,
    /// Flags that describe the image, one bit each (II.25.3.3.1).
    pub flags: u32,
    /// The token of the method where the program begins, or of the file that has it; 0 in a library.
    pub entry_point_token: u32,
    /// The resources of the image.
    pub resources: ClimDirectory,
    /// The hash of the file by which a loader checks its strong name.
    pub strong_name_signature: ClimDirectory,
    /// Always 0 by the standard.
    pub code_manager_table: ClimDirectory,
    /// The tables of function pointers that a loader fills in.
    pub vtable_fixups: ClimDirectory,
    /// Always 0 by the standard.
    pub export_address_table_jumps: ClimDirectory,
    /// Always 0 by the standard.
    pub managed_native_header: ClimDirectory,
}

/// A directory as a C caller receives it.
fn reported_directory(directory: DataDirectory) -> ClimDirectory
    ensures { directory_of result ≡ directory }
{
    ClimDirectory {
        rva: directory.rva,
        size: directory.size,
    }
}

/// A header as a C caller receives it.
pub fn reported_header(header: &CliHeader) -> ClimHeader
    ensures { header_of result ≡ header.now }
{
    ClimHeader {
        offset: header.place,
        root_start: header.root.start,
        root_end: header.root.end,
        cb: header.cb,
        major_runtime_version: header.major_runtime_version,
        minor_runtime_version: header.minor_runtime_version,
        metadata: reported_directory(header.metadata),
        flags: header.flags,
        entry_point_token: header.entry_point_token,
        resources: reported_directory(header.resources),
        strong_name_signature: reported_directory(header.strong_name_signature),
        code_manager_table: reported_directory(header.code_manager_table),
        vtable_fixups: reported_directory(header.vtable_fixups),
        export_address_table_jumps: reported_directory(header.export_address_table_jumps),
        managed_native_header: reported_directory(header.managed_native_header),
    }
}
