ghost use Rattle.std.specs.Prelude.{◌≡◌, ◌+◌, ◌≤◌, length, IfOk, IfErr};
ghost use Rattle.std.specs.Option.{option_map};
ghost use Rattle.packed.specs.Limit.{byte_limit};
ghost use Rattle.packed.specs.Rule.{Reports, rules_from};
ghost use Rattle.root.specs.Rules.{rules_of_header, rules_of_tables};
ghost use Rattle.root.specs.Fields.{header_count, header_length, header_number, header_offset, headers_before};
ghost use Rattle.root.specs.Shown.{AllShow};
ghost use Rattle.root.specs.Streams.{named, stream_name};
ghost use Rattle.root.specs.Views.{view};

use crate::header::{StreamHeader, read_header};
use crate::kind::Kind;
use packed::{Fault, FaultCode};

/// The first of `count` headers that names a stream.
pub fn find_header<'a>(
    bytes: &'a [u8],
    start: usize,
    count: usize,
    kind: Kind,
) -> Option<StreamHeader<'a>>
    requires small { length bytes.now ≤ byte_limit }
    requires start { start ≡ header_offset bytes.now 0 }
    requires shows { AllShow bytes.now count }
    ensures { option_map view result ≡ named (stream_name kind) (headers_before bytes.now count) }
{
    let mut place = start;
    for _ in 0..count {
        let header = read_header(bytes, place)?;
        if header.name == kind.name() {
            return Some(header);
        }
        place = header.end();
    }
    None
}

/// The header with this number, at offset `place`, if it follows its rules.
fn check_header<'a>(
    bytes: &'a [u8],
    start: usize,
    number: usize,
    place: usize,
) -> Result<StreamHeader<'a>, Fault>
    requires small { length bytes.now ≤ byte_limit }
    requires start { start ≡ header_offset bytes.now 0 }
    requires shows { AllShow bytes.now number }
    requires place { place ≡ header_offset bytes.now number }
    requires room { place ≤ length bytes.now }
    ensures reports { Reports (rules_of_header bytes.now number) result }
    ensures header { IfOk result (λ header. view header ≡ header_number bytes.now number) }
    ensures end { IfOk result (λ header. place + header_length (view header) ≤ length bytes.now) }
    ensures within { IfErr result (λ fault. fault.offset ≤ length bytes.now) }
{
    let Some(header) = read_header(bytes, place) else {
        return Err(Fault::new(FaultCode::StreamHeader, place as u64));
    };
    if let Some(kind) = Kind::of(header.name) {
        if header.offset as usize + header.size as usize > bytes.len() {
            return Err(Fault::new(FaultCode::StreamRange, place as u64));
        }
        if find_header(bytes, start, number, kind).is_some() {
            return Err(Fault::new(FaultCode::DuplicateStream, place as u64));
        }
    }
    if header.name == "#-" {
        return Err(Fault::new(FaultCode::Uncompressed, place as u64));
    }
    Ok(header)
}

/// Checks that each stream header of the root follows its rules.
#[tactic(auto, using(packed::proofs::RuleLemmas::before_none, packed::proofs::RuleLemmas::before_all))]
pub fn check_headers(bytes: &[u8], start: usize, count: usize) -> Result<(), Fault>
    requires small { length bytes.now ≤ byte_limit }
    requires start { start ≡ header_offset bytes.now 0 }
    requires count { count ≡ header_count bytes.now }
    requires room { start ≤ length bytes.now }
    ensures reports { Reports (rules_from (rules_of_header bytes.now) 0 (header_count bytes.now)) result }
    ensures within { IfErr result (λ fault. fault.offset ≤ length bytes.now) }
{
    let mut place = start;
    for number in 0..count {
        let header = check_header(bytes, start, number, place)?;
        place = header.end();
    }
    Ok(())
}

/// Checks that one of the root's headers names the tables.
pub fn check_tables(bytes: &[u8], start: usize, count: usize) -> Result<(), Fault>
    requires small { length bytes.now ≤ byte_limit }
    requires start { start ≡ header_offset bytes.now 0 }
    requires count { count ≡ header_count bytes.now }
    requires shows { AllShow bytes.now (header_count bytes.now) }
    requires room { start ≤ length bytes.now }
    ensures reports { Reports (rules_of_tables bytes.now) result }
    ensures within { IfErr result (λ fault. fault.offset ≤ length bytes.now) }
{
    if find_header(bytes, start, count, Kind::Tables).is_none() {
        return Err(Fault::new(FaultCode::NoTables, (start - 2) as u64));
    }
    Ok(())
}
