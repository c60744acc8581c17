ghost use Rattle.std.specs.Prelude.{◌≡◌, ◌≤◌, length, IfNone, IfSome};
ghost use Rattle.packed.specs.Limit.{byte_limit};
ghost use Rattle.packed.specs.Rule.{AllHold};
ghost use Rattle.root.specs.Fields.{header_count, header_offset};
ghost use Rattle.root.specs.Readable.{IsReadable, IsReadableCount};
ghost use Rattle.root.specs.Rules.{rules_of_root_header};

use crate::header::read_header;
use crate::headers::Headers;
use crate::root_header::read_root_header;

/// The number of stream headers that can be read: all, or those before the first that is none.
fn count_readable(bytes: &[u8], start: usize, count: usize) -> usize
    requires small { length bytes.now ≤ byte_limit }
    requires start { start ≡ header_offset bytes.now 0 }
    requires count { count ≡ header_count bytes.now }
    ensures { IsReadableCount bytes.now result }
{
    let mut place = start;
    for number in 0..count {
        let Some(header) = read_header(bytes, place) else {
            return number;
        };
        place = header.end();
    }
    count
}

/// The version and the stream headers of bytes that may break a rule (II.24.2.1, II.24.2.2): the headers before the first
/// that cannot be read. It does not look at what the headers say. `None` if the fields before them break a rule.
///
/// The call does not allocate. Its time is linear in the size of the stream headers.
pub fn read_until_fault(bytes: &[u8]) -> Option<(&str, Headers<'_>)>
    ensures some { IfSome result (λ read. IsReadable bytes.now read.0.now read.1) }
    ensures none { IfNone result (¬ AllHold (rules_of_root_header bytes.now)) }
{
    let Ok(root_header) = read_root_header(bytes) else {
        return None;
    };
    let count = count_readable(bytes, root_header.start, root_header.count);
    let headers = Headers::new(bytes, root_header.start, count);
    Some((root_header.version, headers))
}
