ghost use Rattle.std.specs.Prelude.{◌≡◌, ◌≤◌, ◌^◌, ◌-◌, ◌++◌, List, ℕ, ℤ, pos, neg_ℤ, ◌≤ℤ◌, ◌<ℤ◌, ◌+ℤ◌, length, take, IfSome, IsSomeAnd, OnOk, OnErr, IsOk, ◌+◌, vec_len, vec_capacity};
ghost use Rattle.packed.specs.Prefix.{signed_at, bits_of};
ghost use Rattle.packed.specs.Packed.{IsPackedSigned, short_signed};

use crate::unsigned::{in_four_bytes, in_one_byte, in_two_bytes, read_unsigned};
use std::alloc::AllocError;

/// The value of the highest bit in the form of `count` bytes.
fn sign_bit(count: usize) -> i32
    ensures { result ≡ pos (2 ^ (bits_of count - 1)) }
{
    match count {
        1 => 1 << 6,
        2 => 1 << 13,
        _ => 1 << 28,
    }
}

/// Decodes the packed signed number at the start of the bytes.
#[tactic(auto, unfolding(crate::specs::Prefix::signed_at))]
fn signed(bytes: &[u8]) -> Option<(i32, usize)>
    ensures { result ≡ signed_at bytes.now }
{
    let (number, count) = read_unsigned(bytes)?;
    let half = (number / 2) as i32;
    if number % 2 == 0 {
        return Some((half, count));
    }
    Some((half - sign_bit(count), count))
}

/// Decodes the packed signed number at the start of the bytes (II.23.2). Returns the number, from
/// -2^28 to 2^28 - 1, and the number of bytes read. The encoding need not be the shortest one.
///
/// Returns `None` if the bytes do not begin with a packed number.
pub fn read_signed(bytes: &[u8]) -> Option<(i32, usize)>
    ensures sound { IfSome result (λ read. (read.1 ≤ length bytes.now) × IsPackedSigned read.0 (take read.1 bytes.now)) }
    ensures complete { (z : ℤ) (prefix tail : List ℕ) → bytes.now ≡ prefix ++ tail → IsPackedSigned z prefix
        → IsSomeAnd result (λ read. (read.0 ≡ z) × (read.1 ≡ length prefix)) }
    ensures value { result ≡ signed_at bytes.now }
{
    signed(bytes)
}

/// The bits of a number in two's complement, rotated left by one. `sign_bit` is the value of the highest bit.
fn rotated_bits(number: i32, sign_bit: i32) -> u32
    requires some { pos 0 <ℤ sign_bit }
    requires few { sign_bit ≤ℤ pos (2 ^ 28) }
    requires low { neg_ℤ sign_bit ≤ℤ number }
    requires high { number <ℤ sign_bit }
    ensures positive { pos 0 ≤ℤ number → pos result ≡ number +ℤ number }
    ensures negative { number <ℤ pos 0 → pos result ≡ number +ℤ number +ℤ sign_bit +ℤ sign_bit +ℤ pos 1 }
{
    if number >= 0 {
        return 2 * number as u32;
    }
    2 * (number + sign_bit) as u32 + 1
}

/// Appends the shortest encoding of a number (II.23.2): 7 bits from -64 to 63, 14 bits from -8192
/// to 8191, else 29 bits.
///
/// # Errors
///
/// Out of memory only. The bytes are then unchanged.
pub fn put_signed(bytes: &mut Vec<u8>, number: i32) -> Result<(), AllocError>
    requires low { neg_ℤ (pos (2 ^ 28)) ≤ℤ number }
    requires high { number <ℤ pos (2 ^ 28) }
    ensures ok { OnOk result (bytes.new.items ≡ bytes.old.items ++ short_signed number) }
    ensures err { OnErr result (bytes.new.items ≡ bytes.old.items) }
    ensures len { OnOk result (vec_len bytes.new ≡ vec_len bytes.old + length (short_signed number)) }
    ensures capacity { vec_capacity bytes.old ≤ vec_capacity bytes.new }
    ensures succeeds { vec_len bytes.old + length (short_signed number) ≤ vec_capacity bytes.old → IsOk result }
{
    match number {
        -64..64 => bytes.extend_from_slice(&in_one_byte(rotated_bits(number, 1 << 6))),
        -8192..8192 => bytes.extend_from_slice(&in_two_bytes(rotated_bits(number, 1 << 13))),
        _ => bytes.extend_from_slice(&in_four_bytes(rotated_bits(number, 1 << 28))),
    }
}
