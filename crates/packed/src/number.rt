ghost use Rattle.std.specs.Prelude.{◌≡◌, ◌+◌, ◌≤◌, length};
ghost use Rattle.packed.specs.Number.{little_endian, IsNumber};
ghost use Rattle.packed.specs.Offsets.{part};

use byteorder::{ByteOrder, LittleEndian};

/// The little-endian number in the two bytes at offset `at`.
#[tactic(auto, using(crate::proofs::NumberLemmas::little_number_part, crate::proofs::NumberLemmas::number_stands))]
pub fn u16_at(bytes: &[u8], at: usize) -> u16
    requires { at + 2 ≤ length bytes.now }
    ensures number { IsNumber 2 (part bytes.now at 2) result }
    ensures value { result ≡ little_endian (part bytes.now at 2) }
{
    LittleEndian::read_u16(&bytes[at..])
}

/// The little-endian number in the four bytes at offset `at`.
#[tactic(auto, using(crate::proofs::NumberLemmas::little_number_part, crate::proofs::NumberLemmas::number_stands))]
pub fn u32_at(bytes: &[u8], at: usize) -> u32
    requires { at + 4 ≤ length bytes.now }
    ensures number { IsNumber 4 (part bytes.now at 4) result }
    ensures value { result ≡ little_endian (part bytes.now at 4) }
{
    LittleEndian::read_u32(&bytes[at..])
}

/// The little-endian number in the eight bytes at offset `at`.
#[tactic(auto, using(crate::proofs::NumberLemmas::little_number_part, crate::proofs::NumberLemmas::number_stands))]
pub fn u64_at(bytes: &[u8], at: usize) -> u64
    requires { at + 8 ≤ length bytes.now }
    ensures number { IsNumber 8 (part bytes.now at 8) result }
    ensures value { result ≡ little_endian (part bytes.now at 8) }
{
    LittleEndian::read_u64(&bytes[at..])
}
