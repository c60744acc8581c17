//! The units of a user string in a caller's buffer. `#US` is read as it is padded: with zeros to a multiple of four
//! (II.24.2.2).
ghost use Rattle.std.specs.Prelude.{◌≡◌, ◌↔◌, ◌<◌, ◌≤◌, ◌%◌, ◌+◌, List, ℕ, IfNone, IfSome, IsSome, IsTrue, drop, length, slice_index, take, unwrap_or};
ghost use Rattle.heap_entries.specs.Entries.{IsBlob, IsUserString, UserText};
ghost use Rattle.heap_entries.specs.Padding.{zero_padded};
ghost use Rattle.heap_entries.specs.UserView.{last_of, units_in};
ghost use Rattle.c_texts.specs.Texts.{with_text};

use packed::read_unsigned;

/// The flag of a user string of no bytes, which has no last byte.
const NO_FLAG: u16 = 256;

/// The number of bytes of the padded heap.
fn padded_len(heap: &[u8]) -> usize
    ensures { result ≡ length (zero_padded heap.now) }
{
    heap.len() + (4 - heap.len() % 4) % 4
}

/// A byte of the padded heap, by its index; 0 after the last.
fn byte_at(heap: &[u8], index: usize) -> u8
    ensures { result ≡ slice_index (zero_padded heap.now) index }
{
    heap.get(index).copied().unwrap_or(0)
}

/// The first byte of a blob in the padded heap and the number of its bytes, by its offset; `None` if there is no blob.
fn blob_at(heap: &[u8], offset: usize) -> Option<(usize, usize)>
    ensures sound { IfSome result (λ found. (found.0 + found.1 ≤ length (zero_padded heap.now))
        × IsBlob (zero_padded heap.now) offset (take found.1 (drop found.0 (zero_padded heap.now)))) }
    ensures complete { (blob : List ℕ) → IsBlob (zero_padded heap.now) offset blob → IsSome result }
{
    if offset == 0 {
        return Some((0, 0));
    }
    let len = padded_len(heap);
    if offset > len {
        return None;
    }
    let head = [
        byte_at(heap, offset),
        byte_at(heap, offset + 1),
        byte_at(heap, offset + 2),
        byte_at(heap, offset + 3),
    ];
    let (head, _) = head.split_at((len - offset).min(4));
    let (count, used) = read_unsigned(head)?;
    if len - offset - used < count as usize {
        return None;
    }
    Some((offset + used, count as usize))
}

/// Writes the UTF-16 units in `count` bytes of the padded heap, up to the length of `units`.
fn write_units(heap: &[u8], start: usize, count: usize, units: &mut [u16])
    requires { start + count ≤ length (zero_padded heap.now) }
    ensures { units.new ≡ with_text units.old (units_in (take count (drop start (zero_padded heap.now)))) }
{
    for k in 0..units.len().min(count / 2) {
        let low = start + 2 * k;
        units[k] = u16::from(byte_at(heap, low)) + 256 * u16::from(byte_at(heap, low + 1));
    }
}

/// Whether a blob of this many bytes is a user string: no bytes, or two bytes for each unit and one more.
fn is_string(count: usize) -> bool
    ensures { IsTrue result ↔ (0 < count → count % 2 ≡ 1) }
{
    count == 0 || count % 2 == 1
}

/// The last of `count` bytes of the padded heap, or 256 if there are none.
fn flag_of(heap: &[u8], start: usize, count: usize) -> u16
    requires { start + count ≤ length (zero_padded heap.now) }
    ensures { result ≡ unwrap_or (last_of (take count (drop start (zero_padded heap.now)))) 256 }
{
    if count == 0 {
        return NO_FLAG;
    }
    u16::from(byte_at(heap, start + count - 1))
}

/// A user string, by its numbers.
#[derive(Clone, Copy)]
pub struct UserNumbers {
    /// The number of its UTF-16 units.
    pub count: usize,
    /// Its last byte, or 256 if it has no bytes.
    pub flag: u16,
}

/// Writes the UTF-16 units of the user string at an offset of `#US`, up to the length of `units` (II.24.2.4). The bytes
/// of `#US` count as padded with zeros to a multiple of four.
///
/// `None` if there is no user string at the offset; `units` is then unchanged.
pub fn write_user_string(user: &[u8], offset: usize, units: &mut [u16]) -> Option<UserNumbers>
    ensures sound { (string : UserText) → IsUserString (zero_padded user.now) offset string
        → IfSome result (λ found. (units.new ≡ with_text units.old string.units) × (found.count ≡ length string.units) × (found.flag ≡ unwrap_or string.flag 256)) }
    ensures there { IfSome result (λ _. (string : UserText) × IsUserString (zero_padded user.now) offset string) }
    ensures none { IfNone result ((string : UserText) → IsUserString (zero_padded user.now) offset string → ⊥) }
    ensures same { IfNone result (units.new ≡ units.old) }
{
    heap_entries::laws::entries_are_one();
    let (start, count) = blob_at(user, offset)?;
    if !is_string(count) {
        return None;
    }
    write_units(user, start, count, units);
    Some(UserNumbers {
        count: count / 2,
        flag: flag_of(user, start, count),
    })
}
