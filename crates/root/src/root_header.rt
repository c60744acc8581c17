ghost use Rattle.std.specs.Prelude.{◌≡◌, ◌+◌, ◌≤◌, length, IfSome, IfNone, IfOk, IfErr};
ghost use Rattle.packed.specs.Limit.{byte_limit};
ghost use Rattle.packed.specs.Rule.{Reports};
ghost use Rattle.root.specs.Rules.{HasVersion, rules_of_root_header};
ghost use Rattle.root.specs.Fields.{version_length, version_of, header_count, header_offset};

use crate::header::nul_in;
use packed::{BYTE_LIMIT, Fault, FaultCode, u16_at, u32_at};
use simdutf8::basic;

/// The largest number of bytes of a version (II.24.2.1).
const VERSION_LIMIT: usize = 254;

/// The version in its field of `len` bytes, if the field holds a valid one.
fn read_version(bytes: &[u8], len: usize) -> Option<&str>
    requires room { 16 ≤ length bytes.now }
    requires len { len ≡ version_length bytes.now }
    ensures sound { IfSome result (λ version. HasVersion bytes.now × (version.now ≡ version_of bytes.now)) }
    ensures none { IfNone result (HasVersion bytes.now → ⊥) }
{
    if len % 4 != 0 || bytes.len() - 16 < len {
        return None;
    }
    let (_, tail) = bytes.split_at(16);
    let (field, _) = tail.split_at(len);
    let end = nul_in(field)?;
    if end > VERSION_LIMIT {
        return None;
    }
    let (version, _) = field.split_at(end);
    let version = basic::from_utf8(version).ok()?;
    Some(version)
}

/// The fields of a root before its stream headers (II.24.2.1).
#[derive(Clone, Copy)]
pub struct RootHeader<'a> {
    /// The version, without its NUL and padding.
    pub version: &'a str,
    /// The offset of the first stream header.
    pub start: usize,
    /// The number of stream headers.
    pub count: usize,
}

/// Reads the fields of a root before its stream headers (II.24.2.1).
pub fn read_root_header(bytes: &[u8]) -> Result<RootHeader<'_>, Fault>
    ensures reports { Reports (rules_of_root_header bytes.now) result }
    ensures version { IfOk result (λ root_header. root_header.version.now ≡ version_of bytes.now) }
    ensures start { IfOk result (λ root_header. root_header.start ≡ header_offset bytes.now 0) }
    ensures count { IfOk result (λ root_header. root_header.count ≡ header_count bytes.now) }
    ensures small { IfOk result (λ _. length bytes.now ≤ byte_limit) }
    ensures room { IfOk result (λ root_header. root_header.start ≤ length bytes.now) }
    ensures within { IfErr result (λ fault. fault.offset ≤ length bytes.now) }
{
    if bytes.len() > BYTE_LIMIT {
        return Err(Fault::new(FaultCode::TooLong, 0));
    }
    if bytes.len() < 16 {
        return Err(Fault::new(FaultCode::RootSignature, 0));
    }
    let (signature, _) = bytes.split_at(4);
    if signature != b"BSJB".as_slice() {
        return Err(Fault::new(FaultCode::RootSignature, 0));
    }
    let len = u32_at(bytes, 12) as usize;
    let Some(version) = read_version(bytes, len) else {
        return Err(Fault::new(FaultCode::Version, 12));
    };
    if bytes.len() - 16 - len < 4 {
        return Err(Fault::new(FaultCode::StreamCount, (16 + len) as u64));
    }
    Ok(RootHeader {
        version,
        start: 20 + len,
        count: u16_at(bytes, 18 + len) as usize,
    })
}
