ghost use Rattle.std.specs.Prelude.{◌≡◌, ◌^◌, nat_lt, if◌then◌else◌, Some, None, pos, neg_ℤ, ◌≤ℤ◌, ◌<ℤ◌, length};
ghost use Rattle.packed.specs.Packed.{short_signed};
ghost use Rattle.sig_encoder.specs.Run.{after};
ghost use Rattle.sig_encoder.specs.Lengths.{number_of, take_room};

use crate::sink::PartSink;
use packed::{BLOB_LIMIT, unsigned_len};
use table_schema::{Coded, Token, join};

/// The number, if it can be encoded: if it is below 2^29.
pub fn encoded_number(number: usize) -> Option<u32>
    ensures { result ≡ (if nat_lt number (2 ^ 29) then Some number else None) }
{
    if number <= BLOB_LIMIT {
        return Some(number as u32);
    }
    None
}

/// The number of a type index: a row of TypeDef, TypeRef or TypeSpec (II.23.2.8). `None` if it has no encoding.
#[tactic(auto, using(crate::proofs::Indexes::code_some, crate::proofs::Indexes::code_great))]
pub fn index_number(token: Token) -> Option<u32>
    ensures { result ≡ number_of token }
{
    let number = join(Coded::TypeDefOrRef, token.table, token.row)?;
    encoded_number(number as usize)
}

/// The number of bytes of a signed number in its shortest form (II.23.2.13).
pub fn signed_len(number: i32) -> usize
    requires low { neg_ℤ (pos (2 ^ 28)) ≤ℤ number }
    requires high { number <ℤ pos (2 ^ 28) }
    ensures { result ≡ length (short_signed number) }
{
    match number {
        -0x40..0x40 => 1,
        -0x2000..0x2000 => 2,
        _ => 4,
    }
}

/// Measures an encoding: it keeps the number of bytes that are left.
#[derive(Drop)]
pub struct Measurer {
    /// The number of bytes that are left.
    pub left: usize,
}

impl Measurer {
    /// Subtracts `count` bytes; `None` if fewer are left.
    #[tactic(auto, unfolding(crate::specs::Lengths::take_room))]
    fn take(&mut self, count: usize) -> Option<()>
        ensures { after result self.new ≡ take_room count self.old }
    {
        self.left = self.left.checked_sub(count)?;
        Some(())
    }
}

impl PartSink for Measurer {
    ghost use Rattle.sig_encoder.specs.Lengths.{measurer_step};

    ghost step = { measurer_step };

    #[tactic(auto, unfolding(crate::specs::Lengths::measurer_step))]
    fn byte(&mut self, code: u16) -> Option<()> {
        if code > 0xFF {
            return None;
        }
        self.take(1)
    }

    #[tactic(auto, unfolding(crate::specs::Lengths::measurer_step))]
    fn number(&mut self, count: usize) -> Option<()> {
        let number = encoded_number(count)?;
        self.take(unsigned_len(number))
    }

    #[tactic(auto, unfolding(crate::specs::Lengths::measurer_step))]
    fn signed(&mut self, value: i32) -> Option<()> {
        match value {
            -0x1000_0000..0x1000_0000 => self.take(signed_len(value)),
            _ => None,
        }
    }

    #[tactic(auto, unfolding(crate::specs::Lengths::measurer_step, crate::specs::Lengths::number_of))]
    fn index(&mut self, token: Token) -> Option<()> {
        let number = index_number(token)?;
        self.take(unsigned_len(number))
    }

    #[tactic(auto, unfolding(crate::specs::Lengths::measurer_step))]
    fn broken(&mut self) -> Option<()> {
        None
    }
}
