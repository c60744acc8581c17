ghost use Rattle.std.specs.Prelude.{◌≡◌, ◌+◌, ◌≤◌, length, IfOk, IfErr, IsOkAnd};
ghost use Rattle.packed.specs.Rule.{AllHold, Reports, FirstBroken};
ghost use Rattle.cli_header.specs.Rules.{rules_of_directory, rules_of_cli_header};
ghost use Rattle.cli_header.specs.Header.{IsCliHeader};
ghost use Rattle.cli_header.specs.Said.{directory_at, header_offset, header_of};

use crate::laws;
use packed::{Fault, FaultCode, u16_at, u32_at};
use pe::Pe;
use std::alloc::AllocError;
use std::ops::Range;

/// The least size of a CLI header, in bytes.
const HEADER_SIZE: u32 = 72;

/// The address and the size of some data, as headers give them (II.25.2.3.3).
///
/// Both are 0 if there is no such data.
#[derive(Clone, Copy, Debug, PartialEq, Eq)]
pub struct DataDirectory {
    /// The relative virtual address of the first byte.
    pub rva: u32,
    /// The number of bytes.
    pub size: u32,
}

/// The CLI header of an image (II.25.3.3).
#[derive(Debug, PartialEq, Eq, Drop)]
pub struct CliHeader {
    /// The file offset of the header, in bytes.
    pub place: usize,
    /// The size of the header in bytes, as its Cb field gives it: at least 72.
    pub cb: u32,
    /// The major part of the least runtime version that the image needs.
    pub major_runtime_version: u16,
    /// The minor part of that version.
    pub minor_runtime_version: u16,
    /// The metadata root.
    pub metadata: DataDirectory,
    /// Flags that describe the image, one bit each (II.25.3.3.1).
    pub flags: u32,
    /// The token of the program's entry point: a method, or the file that has it. 0 in a library.
    pub entry_point_token: u32,
    /// The resources in the image.
    pub resources: DataDirectory,
    /// The hash of the file, with which a loader checks its strong name.
    pub strong_name_signature: DataDirectory,
    /// Always 0 in the standard.
    pub code_manager_table: DataDirectory,
    /// The tables of function pointers that a loader initializes.
    pub vtable_fixups: DataDirectory,
    /// Always 0 in the standard.
    pub export_address_table_jumps: DataDirectory,
    /// Always 0 in the standard.
    pub managed_native_header: DataDirectory,
    /// The span of the metadata root in the file, as `metadata` gives it.
    pub root: Range<usize>,
}

impl Clone for CliHeader {
    ghost use Rattle.std.specs.Prelude.{◌≡◌};

    ghost is_clone = { λ from to. to ≡ from };

    /// The same value. It does not allocate.
    fn clone(&self) -> Result<Self, AllocError> {
        let root = self.root.start..self.root.end;
        Ok(CliHeader { root, ..*self })
    }
}

impl DataDirectory {
    ghost use Rattle.cli_header.specs.Said.{directory_at};

    /// The data directory at an offset in a header.
    fn read(header: &[u8], place: usize) -> DataDirectory
        requires { place + 8 ≤ length header.now }
        ensures { result ≡ directory_at header.now place }
    {
        DataDirectory {
            rva: u32_at(header, place),
            size: u32_at(header, place + 4),
        }
    }
}

/// The file offset of the header that the image's data directory names.
fn find_header(pe: &Pe) -> Result<usize, Fault>
    ensures reports { Reports (rules_of_directory pe.now) result }
    ensures place { IfOk result (λ place. place ≡ header_offset pe.now) }
    ensures within { IfOk result (λ place. place + 72 ≤ length pe.now.bytes) }
{
    let directory = pe.cli_directory_offset() as u64;
    let (rva, size) = pe.cli_directory();
    if rva == 0 || size == 0 {
        return Err(Fault::new(FaultCode::NoCliHeader, directory));
    }
    if size < HEADER_SIZE {
        return Err(Fault::new(FaultCode::CliAddress, directory));
    }
    let Some(range) = pe.range(rva, HEADER_SIZE) else {
        return Err(Fault::new(FaultCode::CliAddress, directory));
    };
    Ok(range.start)
}

/// Checks all rules. Returns the header, or the fault of the first broken rule.
fn check_cli(pe: &Pe) -> Result<CliHeader, Fault>
    ensures reports { Reports (rules_of_cli_header pe.now) result }
    ensures header { IfOk result (λ header. header ≡ header_of pe.now) }
{
    let place = find_header(pe)?;
    let (_, tail) = pe.bytes().split_at(place);
    let (header, _) = tail.split_at(HEADER_SIZE as usize);
    let cb = u32_at(header, 0);
    if cb < HEADER_SIZE {
        return Err(Fault::new(FaultCode::CliSize, place as u64));
    }
    let metadata = DataDirectory::read(header, 8);
    let Some(root) = pe.range(metadata.rva, metadata.size) else {
        return Err(Fault::new(FaultCode::MetadataAddress, (place + 8) as u64));
    };
    Ok(CliHeader {
        place,
        cb,
        major_runtime_version: u16_at(header, 4),
        minor_runtime_version: u16_at(header, 6),
        metadata,
        flags: u32_at(header, 16),
        entry_point_token: u32_at(header, 20),
        resources: DataDirectory::read(header, 24),
        strong_name_signature: DataDirectory::read(header, 32),
        code_manager_table: DataDirectory::read(header, 40),
        vtable_fixups: DataDirectory::read(header, 48),
        export_address_table_jumps: DataDirectory::read(header, 56),
        managed_native_header: DataDirectory::read(header, 64),
        root,
    })
}

/// Reads the CLI header that the image's fifteenth data directory names (II.25.3.3).
///
/// The call does not allocate. Its time is linear in the number of section headers. It does not check
/// the flags and the entry point.
///
/// # Errors
///
/// The fault of the first broken rule for the data directory and the header, with its offset in the file.
pub fn read_cli(pe: &Pe) -> Result<CliHeader, Fault>
    // If it returns a header, it is the image's header.
    ensures sound { IfOk result (λ header. IsCliHeader pe.now header) }
    // If the image has a header, it returns this header. An image has at most one.
    ensures complete { (header : CliHeader) → IsCliHeader pe.now header → IsOkAnd result (λ found. found ≡ header) }
    // The metadata root is within the file.
    ensures root { IfOk result (λ header. (header.root.start ≤ header.root.«end») × (header.root.«end» ≤ length pe.now.bytes)) }
    // If it returns a header, all rules hold, and the header has the values of its bytes.
    ensures all { IfOk result (λ header. AllHold (rules_of_cli_header pe.now) × (header ≡ header_of pe.now)) }
    // A fault is that of the first broken rule.
    ensures first_error { IfErr result (FirstBroken (rules_of_cli_header pe.now)) }
{
    laws::headers_are_read();
    check_cli(pe)
}
