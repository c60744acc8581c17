ghost use Rattle.std.specs.Prelude.{◌≡◌, ◌<◌, ◌≤◌, ◌^◌, ◌++◌, ◌∷◌, [], List, ℕ, length, take, IfSome, IsSomeAnd, MatchOption, OnOk, OnErr, IsOk, ◌+◌, vec_len, vec_capacity};
ghost use Rattle.packed.specs.Prefix.{unsigned_at};
ghost use Rattle.packed.specs.Packed.{IsPacked, one_byte, two_bytes, four_bytes, short_unsigned};

use std::alloc::AllocError;

/// The first byte, and the bytes after it.
fn first(bytes: &[u8]) -> Option<(u32, &[u8])>
    ensures cases { MatchOption result (bytes.now ≡ []) (λ split. bytes.now ≡ split.0 ∷ split.1.now) }
    ensures byte { IfSome result (λ split. split.0 < 2 ^ 8) }
{
    let (byte, tail) = bytes.split_first()?;
    Some((u32::from(*byte), tail))
}

/// Decodes the packed unsigned number at the start of the bytes.
#[tactic(auto, unfolding(crate::specs::Prefix::unsigned_at))]
fn unsigned(bytes: &[u8]) -> Option<(u32, usize)>
    ensures { result ≡ unsigned_at bytes.now }
{
    let (a, tail) = first(bytes)?;
    if a < 0x80 {
        return Some((a, 1));
    }
    if a < 0xC0 {
        let (b, _) = first(tail)?;
        return Some(((a - 0x80) * 0x100 + b, 2));
    }
    if a < 0xE0 {
        let (b, tail) = first(tail)?;
        let (c, tail) = first(tail)?;
        let (d, _) = first(tail)?;
        let high = (a - 0xC0) * 0x100_0000 + b * 0x1_0000;
        return Some((high + c * 0x100 + d, 4));
    }
    None
}

/// Decodes the packed unsigned number at the start of the bytes (II.23.2). Returns the number, below
/// 2^29, and the number of bytes read. The encoding need not be the shortest one.
///
/// Returns `None` if the bytes end within the number, or if the first byte is 0xE0 or more.
pub fn read_unsigned(bytes: &[u8]) -> Option<(u32, usize)>
    ensures sound { IfSome result (λ read. (read.1 ≤ length bytes.now) × IsPacked read.0 (take read.1 bytes.now)) }
    ensures complete { (n : ℕ) (prefix tail : List ℕ) → bytes.now ≡ prefix ++ tail → IsPacked n prefix
        → IsSomeAnd result (λ read. (read.0 ≡ n) × (read.1 ≡ length prefix)) }
    ensures value { result ≡ unsigned_at bytes.now }
{
    unsigned(bytes)
}

/// The number of bytes of the shortest encoding of a number: 1, 2 or 4.
pub fn unsigned_len(number: u32) -> usize
    requires { number < 2 ^ 29 }
    ensures { result ≡ length (short_unsigned number) }
{
    match number {
        0..0x80 => 1,
        0x80..0x4000 => 2,
        _ => 4,
    }
}

/// The one-byte form of a number.
pub(crate) fn in_one_byte(number: u32) -> [u8; 1]
    requires { number < 2 ^ 7 }
    ensures { result ≡ one_byte number }
{
    [number as u8]
}

/// The two-byte form of a number.
pub(crate) fn in_two_bytes(number: u32) -> [u8; 2]
    requires { number < 2 ^ 14 }
    ensures { result ≡ two_bytes number }
{
    [(0x80 + number / 0x100) as u8, (number % 0x100) as u8]
}

/// The four-byte form of a number.
pub(crate) fn in_four_bytes(number: u32) -> [u8; 4]
    requires { number < 2 ^ 29 }
    ensures { result ≡ four_bytes number }
{
    [
        (0xC0 + number / 0x100_0000) as u8,
        (number / 0x1_0000 % 0x100) as u8,
        (number / 0x100 % 0x100) as u8,
        (number % 0x100) as u8,
    ]
}

/// Appends the shortest encoding of a number (II.23.2).
///
/// # Errors
///
/// Out of memory only. The bytes are then unchanged.
pub fn put_unsigned(bytes: &mut Vec<u8>, number: u32) -> Result<(), AllocError>
    requires { number < 2 ^ 29 }
    ensures ok { OnOk result (bytes.new.items ≡ bytes.old.items ++ short_unsigned number) }
    ensures err { OnErr result (bytes.new.items ≡ bytes.old.items) }
    ensures len { OnOk result (vec_len bytes.new ≡ vec_len bytes.old + length (short_unsigned number)) }
    ensures capacity { vec_capacity bytes.old ≤ vec_capacity bytes.new }
    ensures succeeds { vec_len bytes.old + length (short_unsigned number) ≤ vec_capacity bytes.old → IsOk result }
{
    match number {
        0..0x80 => bytes.extend_from_slice(&in_one_byte(number)),
        0x80..0x4000 => bytes.extend_from_slice(&in_two_bytes(number)),
        _ => bytes.extend_from_slice(&in_four_bytes(number)),
    }
}
