ghost use Rattle.std.specs.Prelude.{◌≡◌, ◌+◌, ◌≤◌, List, ℕ, length, IfSome, IfOk, IfErr, IsOkAnd, Option, Some, None};
ghost use Rattle.std.specs.Option.{option_map};
ghost use Rattle.packed.specs.Limit.{byte_limit};
ghost use Rattle.packed.specs.Rule.{AllHold, Reports, FirstBroken};
ghost use Rattle.root.specs.Rules.{rules_of_root};
ghost use Rattle.root.specs.Fields.{root_read};
ghost use Rattle.root.specs.Root.{IsRoot};
ghost use Rattle.root.specs.Streams.{Header, RootRead, range_of, stream_of};

use crate::headers::Headers;
use crate::kind::Kind;
use crate::root_header::read_root_header;
use crate::walk::{check_headers, check_tables, find_header};
use packed::Fault;
use std::alloc::AllocError;
use std::marker::Model;
use std::ops::Range;

/// A metadata root. It borrows the bytes that it was read from.
#[derive(Drop)]
pub struct Root<'a> {
    bytes: &'a [u8],
    version: &'a str,
    start: usize,
    count: usize,
}

impl<'a> Model for Root<'a> {
    ghost use Rattle.root.specs.Streams.{RootRead};

    ghost Value = { RootRead };

    ghost use Rattle.root.specs.Checked.{root_of, IsChecked};

    ghost view = { root_of };

    ghost invariant = { IsChecked };
}

impl<'a> Clone for Root<'a> {
    ghost use Rattle.std.specs.Prelude.{◌≡◌, ⊤};

    ghost is_clone = { λ from to. to ≡ from };

    ghost is_infallible = { λ _. ⊤ };

    /// The same value. It does not allocate, and never fails.
    fn clone(&self) -> Result<Self, AllocError> {
        Ok(Root {
            bytes: self.bytes,
            version: self.version,
            start: self.start,
            count: self.count,
        })
    }
}

impl<'a> Root<'a> {
    /// The version of the metadata: at most 254 bytes of UTF-8, such as `v4.0.30319` (II.24.2.1).
    pub fn version(&self) -> &'a str
        ensures { result.now ≡ self.now.version }
    {
        self.version
    }

    /// All stream headers in file order, including those with names that the standard does not define.
    pub fn headers(&self) -> Headers<'a>
        ensures { result ≡ self.now.headers }
    {
        Headers::new(self.bytes, self.start, self.count)
    }

    /// The span of a stream, in bytes from the start of the root; `None` if no header names it.
    pub fn stream_place(&self, kind: Kind) -> Option<Range<usize>>
        ensures place { option_map (λ range. (range.start, range.«end»)) result ≡ range_of self.now kind }
        ensures within { IfSome result (λ range. (range.start ≤ range.«end») × (range.«end» ≤ length self.now.bytes)) }
    {
        let header = find_header(self.bytes, self.start, self.count, kind)?;
        let start = header.offset as usize;
        Some(start..start + header.size as usize)
    }

    /// The bytes of a stream; `None` if no header names it.
    pub fn stream(&self, kind: Kind) -> Option<&'a [u8]>
        ensures { option_map (λ bytes. bytes.now) result ≡ stream_of self.now kind }
    {
        let header = find_header(self.bytes, self.start, self.count, kind)?;
        let (_, tail) = self.bytes.split_at(header.offset as usize);
        let (stream, _) = tail.split_at(header.size as usize);
        Some(stream)
    }
}

/// Checks all rules. Returns the root, or the fault of the first broken rule.
fn check_root(bytes: &[u8]) -> Result<Root<'_>, Fault>
    ensures reports { Reports (rules_of_root bytes.now) result }
    ensures root { IfOk result (λ root. root ≡ root_read bytes.now) }
    ensures within { IfErr result (λ fault. fault.offset ≤ length bytes.now) }
{
    let root_header = read_root_header(bytes)?;
    check_headers(bytes, root_header.start, root_header.count)?;
    check_tables(bytes, root_header.start, root_header.count)?;
    Ok(Root {
        bytes,
        version: root_header.version,
        start: root_header.start,
        count: root_header.count,
    })
}

/// Reads the metadata root in these bytes (II.24.2.1).
///
/// Every offset is relative to their start. The call does not allocate. Its time is linear in the
/// size of the stream headers. It does not look at the contents of the streams.
///
/// # Errors
///
/// The fault of the first broken rule for the first fields and the stream headers, with its offset.
pub fn read_root(bytes: &[u8]) -> Result<Root<'_>, Fault>
    // If it returns a root, the bytes are a root with this version and these stream headers.
    ensures sound { IfOk result (λ root. (length bytes.now ≤ byte_limit) × (root.bytes ≡ bytes.now)
        × IsRoot bytes.now root.version root.headers) }
    // If the bytes are a root of at most 2^30 bytes, it returns this root. Version and headers are unique.
    ensures complete { (version : List ℕ) (headers : List Header) → length bytes.now ≤ byte_limit → IsRoot bytes.now version headers
        → IsOkAnd result (λ root. (root.version ≡ version) × (root.headers ≡ headers)) }
    // If it returns a root, all rules hold, and the root has the values of the fields.
    ensures all { IfOk result (λ root. AllHold (rules_of_root bytes.now) × (root ≡ root_read bytes.now)) }
    // A fault is that of the first broken rule.
    ensures first_error { IfErr result (FirstBroken (rules_of_root bytes.now)) }
    // The fault's offset is within the bytes, or at their end.
    ensures within { IfErr result (λ fault. fault.offset ≤ length bytes.now) }
{
    check_root(bytes)
}
