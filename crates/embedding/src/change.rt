//! Bytes that take the place of others, and the checksum of a PE file.
ghost use Rattle.std.specs.Prelude.{◌≡◌, ◌+◌, ◌*◌, ◌≤◌, ◌^◌, length};
ghost use Rattle.schema.specs.LaidOut.{number_bytes};
ghost use Rattle.embedding.specs.Bytes.{with_bytes, checksum, sum_of_words};

use packed::u16_at;

/// The largest number of two bytes: carries are added modulo it.
const WORD_MAX: u64 = 0xFFFF;

/// Writes bytes at an offset, over those that are there.
#[tactic(auto, using(crate::proofs::Parts::put_is))]
pub fn put_bytes(whole: &mut [u8], offset: usize, bytes: &[u8])
    requires { offset + length bytes.now ≤ length whole.old }
    ensures { whole.new ≡ with_bytes offset bytes.now whole.old }
{
    whole[offset..offset + bytes.len()].copy_from_slice(bytes);
}

/// Writes a number of four bytes at an offset, the lowest byte first.
pub fn put_number(whole: &mut [u8], offset: usize, number: u32)
    requires { offset + 4 ≤ length whole.old }
    ensures { whole.new ≡ with_bytes offset (number_bytes 4 number) whole.old }
{
    put_bytes(whole, offset, &number.to_le_bytes());
}

/// The sum of numbers of two bytes, of which the lowest byte is the first.
fn sum_of_words(bytes: &[u8]) -> u64
    requires { length bytes.now ≤ 2 ^ 30 }
    ensures value { result ≡ sum_of_words bytes.now }
    ensures small { result ≤ 0xFFFF * length bytes.now }
{
    let mut sum = 0;
    let mut offset = 0;
    while offset + 1 < bytes.len() {
        sum += u16_at(bytes, offset) as u64;
        offset += 2;
    }
    if offset < bytes.len() {
        sum += bytes[offset] as u64;
    }
    sum
}

/// The checksum of a file whose field for it is 0 (II.25.2.3.2).
pub fn checksum(file: &[u8]) -> u32
    requires { length file.now ≤ 2 ^ 30 }
    ensures { result ≡ checksum file.now }
{
    let sum = sum_of_words(file);
    let folded = if sum == 0 {
        0
    } else {
        (sum - 1) % WORD_MAX + 1
    };
    (folded + file.len() as u64) as u32
}
