ghost use Rattle.std.specs.Prelude.{◌≡◌, ◌<◌, ◌%◌, ◌↔◌, ℕ, List, length, IfOk, IsOkAnd, IsTrue};
ghost use Rattle.std.specs.Iterator.{YieldsFirstBy, item_count};
ghost use Rattle.packed.specs.Rule.{Reports};
ghost use Rattle.heap_entries.specs.Rules.{at_offset, rules_of_user_string};
ghost use Rattle.heap_entries.specs.Entries.{IsUserString, UserText};

use crate::blobs::blob;
use crate::fault::HeapFault;
use packed::u16_at;
use std::marker::Model;

/// A user string (II.24.2.4). It borrows the bytes of its heap. `user_string` creates it.
#[derive(Drop)]
pub struct UserString<'a> {
    blob: &'a [u8],
}

impl<'a> Model for UserString<'a> {
    ghost use Rattle.heap_entries.specs.Entries.{UserText};

    ghost Value = { UserText };

    ghost use Rattle.heap_entries.specs.UserView.{string_of, IsUserBlob};

    ghost view = { string_of };

    ghost invariant = { IsUserBlob };
}

impl<'a> UserString<'a> {
    /// The UTF-16 units, in order. They need not be valid UTF-16.
    pub fn units(&self) -> Units<'a>
        ensures { result ≡ self.now.units }
    {
        Units { bytes: self.blob }
    }

    /// The last byte, any from 0 to 255; `None` if the string has no bytes.
    ///
    /// In the standard it is 1 if one of the units is special, else 0.
    pub fn flag(&self) -> Option<u8>
        ensures { result ≡ self.now.flag }
    {
        self.blob.last().copied()
    }
}

/// An iterator over the UTF-16 units of a user string. `UserString::units` creates it.
#[derive(Drop)]
pub struct Units<'a> {
    bytes: &'a [u8],
}

impl<'a> Model for Units<'a> {
    ghost use Rattle.std.specs.Prelude.{List, ℕ};

    ghost Value = { List ℕ };

    ghost use Rattle.heap_entries.specs.UserView.{units_left};

    ghost view = { units_left };
}

impl<'a> Iterator for Units<'a> {
    type Item = u16;

    ghost next_gives = { YieldsFirstBy (λ unit. unit) (λ tail. tail) };

    ghost remaining = { item_count (λ tail. tail) };

    fn next(&mut self) -> Option<u16> {
        if self.bytes.len() < 2 {
            return None;
        }
        let (unit, tail) = self.bytes.split_at(2);
        self.bytes = tail;
        Some(u16_at(unit, 0))
    }
}

/// Whether the bytes of a blob are a user string: no bytes, or two bytes for each unit and one more.
fn is_encoded(blob: &[u8]) -> bool
    ensures { IsTrue result ↔ (0 < length blob.now → length blob.now % 2 ≡ 1) }
{
    blob.is_empty() || blob.len() % 2 == 1
}

/// The user string at an index into `#US` (II.24.2.4). It borrows the bytes of the heap.
///
/// The index is an offset in bytes. Index 0 is the string of no bytes. Any last byte is accepted.
///
/// # Errors
///
/// `BadBlob` if there is no blob at the index. `BadUserString` if its number of bytes is even and not 0.
pub fn user_string(heap: &[u8], index: u32) -> Result<UserString<'_>, HeapFault>
    // If it returns a user string, this is the one at the index.
    ensures sound { IfOk result (λ string. IsUserString heap.now index string) }
    // If there is a user string at the index, it returns this one. So there is no other.
    ensures complete { (string : UserText) → IsUserString heap.now index string → IsOkAnd result (λ found. found ≡ string) }
    ensures reports { (offset : ℕ) → Reports (rules_of_user_string heap.now index offset) (at_offset offset result) }
{
    let blob = blob(heap, index)?;
    if !is_encoded(blob) {
        return Err(HeapFault::BadUserString);
    }
    Ok(UserString { blob })
}
