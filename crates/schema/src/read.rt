ghost use Rattle.std.specs.Prelude.{◌≡◌, ◌<◌, ◌≤◌, ◌↔◌, length, count_by, IsTrue, IfOk, IfErr};
ghost use Rattle.packed.specs.Rule.{Reports, rules_from};
ghost use Rattle.table_schema.specs.Tables.{tables};
ghost use Rattle.schema.specs.LaidOut.{bits_of};
ghost use Rattle.schema.specs.Header.{has_bit, valid_of, count_offset, count_in, sizes_of};
ghost use Rattle.schema.specs.Rules.{NamesTables, rules_of_header, rules_of_count, rules_of_count_at, rules_of_stream};

use crate::header::Header;
use crate::layout::Layout;
use packed::{Fault, FaultCode, u32_at, u64_at};
use table_schema::TableId;

/// The largest number of rows of a table (II.22).
const ROW_LIMIT: u32 = 0xFF_FFFF;

/// Whether the bit of a table is set.
fn is_set(bits: u64, table: TableId) -> bool
    ensures { result ≡ has_bit bits table }
{
    bits >> table.number() & 1 == 1
}

/// The bits of Valid that are bits of tables.
fn table_bits(valid: u64) -> u64
    ensures { result ≡ bits_of (has_bit valid) tables }
{
    let mut bits = 0;
    for table in TableId::all() {
        if is_set(valid, *table) {
            bits += 1 << table.number();
        }
    }
    bits
}

/// Whether Valid sets bits of tables only.
fn names_tables(valid: u64) -> bool
    ensures { IsTrue result ↔ NamesTables valid }
{
    table_bits(valid) == valid
}

/// The number of tables that Valid names.
fn counted(valid: u64) -> usize
    ensures value { result ≡ count_by (has_bit valid) tables }
    ensures limit { result ≤ 38 }
{
    TableId::all()
        .iter()
        .filter(|table| is_set(valid, **table))
        .count()
}

/// Checks the fields up to the row counts. Returns Valid.
fn read_valid(bytes: &[u8]) -> Result<u64, Fault>
    ensures reports { Reports (rules_of_header bytes.now) result }
    ensures valid { IfOk result (λ valid. valid ≡ valid_of bytes.now) }
    ensures within { IfErr result (λ fault. fault.offset < 256) }
{
    if bytes.len() < 24 {
        return Err(Fault::new(FaultCode::TablesHeader, 0));
    }
    let (_, tail) = bytes.split_at(4);
    let (version, _) = tail.split_at(2);
    if version != [2, 0].as_slice() {
        return Err(Fault::new(FaultCode::TablesVersion, 4));
    }
    if bytes[6] >= 8 {
        return Err(Fault::new(FaultCode::HeapSizes, 6));
    }
    let valid = u64_at(bytes, 8);
    if !names_tables(valid) {
        return Err(Fault::new(FaultCode::UnknownTable, 8));
    }
    if bytes.len() < 24 + 4 * counted(valid) {
        return Err(Fault::new(FaultCode::RowCounts, 24));
    }
    Ok(valid)
}

/// Reads the row count of a table at its offset. It is 0 if Valid does not name the table.
fn read_count(bytes: &[u8], valid: u64, table: TableId, offset: usize) -> Result<u32, Fault>
    requires valid { valid ≡ valid_of bytes.now }
    requires offset { offset ≡ count_offset (valid_of bytes.now) table }
    requires room { (sizes_of bytes.now).body ≤ length bytes.now }
    ensures reports { Reports (rules_of_count bytes.now table) result }
    ensures count { IfOk result (λ count. count ≡ count_in bytes.now table) }
    ensures within { IfErr result (λ fault. fault.offset ≡ offset) }
{
    if !is_set(valid, table) {
        return Ok(0);
    }
    let count = u32_at(bytes, offset);
    if count > ROW_LIMIT {
        return Err(Fault::new(FaultCode::RowCount, offset as u64));
    }
    Ok(count)
}

/// Reads the row counts of all tables.
fn read_counts(bytes: &[u8], valid: u64) -> Result<[u32; 38], Fault>
    requires valid { valid ≡ valid_of bytes.now }
    requires room { (sizes_of bytes.now).body ≤ length bytes.now }
    ensures reports { Reports (rules_from (rules_of_count_at bytes.now) 0 38) result }
    ensures counts { IfOk result (λ counts. counts ≡ (sizes_of bytes.now).counts) }
    ensures within { IfErr result (λ fault. fault.offset < 256) }
{
    let mut counts = [0; 38];
    let mut offset = 24;
    for (table_index, table) in TableId::all().iter().enumerate() {
        let count = read_count(bytes, valid, *table, offset)?;
        counts[table_index] = count;
        if is_set(valid, *table) {
            offset += 4;
        }
    }
    Ok(counts)
}

/// Checks all rules. Returns the layout, or the fault of the first broken rule.
fn read_layout(bytes: &[u8]) -> Result<Layout, Fault>
    ensures reports { Reports (rules_of_stream bytes.now) result }
    ensures layout { IfOk result (λ layout. layout ≡ sizes_of bytes.now) }
    ensures within { IfErr result (λ fault. fault.offset < 256) }
{
    let valid = read_valid(bytes)?;
    let counts = read_counts(bytes, valid)?;
    let body = 24 + 4 * counted(valid);
    let layout = Layout::new(Header {
        counts,
        heap_sizes: bytes[6],
        sorted: u64_at(bytes, 16),
        body,
    });
    if layout.end() > bytes.len() {
        return Err(Fault::new(FaultCode::TablesShort, body as u64));
    }
    Ok(layout)
}

impl Layout {
    ghost use Rattle.std.specs.Prelude.{◌≡◌, ◌<◌, List, ℕ, IfOk, IfErr, IsOkAnd};
    ghost use Rattle.packed.specs.Rule.{FirstBroken};
    ghost use Rattle.schema.specs.Sizes.{Sizes};
    ghost use Rattle.schema.specs.LaidOut.{IsLaidOut, IsTableStream};
    ghost use Rattle.schema.specs.Rules.{rules_of_stream};

    /// Reads the layout of a table stream (II.24.2.6).
    ///
    /// It reads the header only, and checks that the tables end within the bytes. It does not read their
    /// cells. Bytes after the last table are ignored.
    ///
    /// # Errors
    ///
    /// The fault of the first broken rule for the header, with its offset in the stream.
    pub fn read(bytes: &[u8]) -> Result<Layout, Fault>
        // If it returns a layout, the bytes are a table stream with these sizes.
        ensures sound { IfOk result (λ layout. IsTableStream bytes.now layout) }
        // If the bytes are a table stream, it returns the layout with its only sizes.
        ensures complete { (sizes : Sizes) (numbers : List (List (List ℕ))) → IsLaidOut bytes.now sizes numbers
            → IsOkAnd result (λ layout. layout ≡ sizes) }
        // A fault is that of the first broken rule.
        ensures first_error { IfErr result (FirstBroken (rules_of_stream bytes.now)) }
        // The fault's offset is below 256.
        ensures within { IfErr result (λ fault. fault.offset < 256) }
    {
        read_layout(bytes)
    }
}
