//! The data of fields with an RVA (II.22.18).
ghost use Rattle.std.specs.Prelude.{◌≡◌, ◌↔◌, ◌≤◌, ◌<◌, IsTrue};
ghost use Rattle.table_schema.specs.declared.table.TableId.TheVariants.{FieldRVA};
ghost use Rattle.metadata.specs.Source.{rows_in};
ghost use Rattle.file_ranges.specs.ClassSizes.{AreSizes};
ghost use Rattle.file_ranges.specs.FieldData.{simple_size, value_type, signature_size};
ghost use Rattle.file_ranges.specs.Occupied.{IsDataApart, IsRowApart, IsValueApart, IsTypeApart};

use crate::addresses::is_apart;
use crate::class_sizes::ClassSizes;
use cli_header::CliHeader;
use heap_entries::blob;
use opening::{Source, TableId};
use packed::read_unsigned;

/// The first byte of the type of a field that is a value type (II.23.1.16).
const VALUE_TYPE: u8 = 0x11;

/// Whether the data of all fields is apart from the metadata (II.22.18).
pub fn is_data_apart(header: &CliHeader, source: &Source) -> bool
    ensures { IsTrue result ↔ IsDataApart header.now source.now.source }
{
    let sizes = ClassSizes::of(source);
    for row in 1..source.count(TableId::FieldRVA) + 1 {
        if !is_row_apart(header, source, sizes, row) {
            return false;
        }
    }
    true
}

/// Whether the data of a row of FieldRVA is apart from the metadata.
fn is_row_apart(header: &CliHeader, source: &Source, sizes: ClassSizes, row: u32) -> bool
    requires sizes { AreSizes source.now.source sizes }
    requires first { 1 ≤ row }
    requires last { row ≤ rows_in source.now.source FieldRVA }
    ensures { IsTrue result ↔ IsRowApart header.now source.now.source row }
{
    let rva = source.number(TableId::FieldRVA, row, 0);
    let field = source.number(TableId::FieldRVA, row, 1);
    if field < 1 || source.count(TableId::Field) < field {
        return false;
    }
    let index = source.number(TableId::Field, field, 2);
    match blob(source.blobs(), index) {
        Ok(signature) => is_value_apart(header, source, sizes, rva, signature),
        Err(_) => false,
    }
}

/// Whether the data at an address of a field with this signature is apart from the metadata.
fn is_value_apart(
    header: &CliHeader,
    source: &Source,
    sizes: ClassSizes,
    rva: u32,
    signature: &[u8],
) -> bool
    requires { AreSizes source.now.source sizes }
    ensures { IsTrue result ↔ IsValueApart header.now source.now.source rva signature.now }
{
    is_apart(header, rva, signature_size(signature))
        && is_type_apart(header, source, sizes, rva, value_type(signature))
}

/// Whether data of the type in this row of TypeDef is apart from the metadata, by the size of the type (II.22.8).
fn is_type_apart(header: &CliHeader, source: &Source, sizes: ClassSizes, rva: u32, row: u32) -> bool
    requires { AreSizes source.now.source sizes }
    ensures { IsTrue result ↔ IsTypeApart header.now source.now.source rva row }
{
    is_apart(header, rva, sizes.size_of(source, row))
}

/// The size of a value of a simple type in bytes (II.23.1.16); 1 for all others.
fn simple_size(element: u8) -> u32
    ensures { result ≡ simple_size element }
{
    match element {
        0x03 | 0x06 | 0x07 => 2,
        0x08 | 0x09 | 0x0C => 4,
        0x0A | 0x0B | 0x0D => 8,
        _ => 1,
    }
}

/// The size of the data of a field with this signature, if its type is no row of TypeDef (II.23.2.4).
fn signature_size(signature: &[u8]) -> u32
    ensures { result ≡ signature_size signature.now }
{
    match signature {
        [_, element, ..] => simple_size(*element),
        _ => 1,
    }
}

/// The row of TypeDef that is the type of a field with this signature, or 0 (II.23.2.4, II.23.2.8).
fn value_type(signature: &[u8]) -> u32
    ensures { result ≡ value_type signature.now }
{
    match signature {
        [_, VALUE_TYPE, index @ ..] => match read_unsigned(index) {
            Some((coded, _)) if coded % 4 == 0 => coded / 4,
            _ => 0,
        },
        _ => 0,
    }
}
