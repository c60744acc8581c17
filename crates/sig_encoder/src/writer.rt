ghost use Rattle.std.specs.Prelude.{◌≡◌, ◌<◌, ◌^◌, pos, neg_ℤ, ◌≤ℤ◌, ◌<ℤ◌};
ghost use Rattle.packed.specs.Packed.{short_unsigned, short_signed};
ghost use Rattle.sig_encoder.specs.Run.{after};
ghost use Rattle.sig_encoder.specs.Written.{put_short};

use crate::measurer::{encoded_number, index_number, signed_len};
use crate::sink::PartSink;
use packed::{put_signed, put_unsigned, unsigned_len};
use std::marker::Model;
use table_schema::Token;

/// Appends an encoding to bytes, within the capacity that was reserved for it.
#[derive(Drop)]
pub struct Writer {
    /// The bytes before the encoding, and those written so far.
    pub bytes: Vec<u8>,
    /// The number of bytes that still fit.
    pub left: usize,
}

impl Model for Writer {
    ghost use Rattle.std.specs.Prelude.{◌≤◌, ◌+◌, List, ℕ, vec_len, vec_capacity};

    ghost Value = { List ℕ × ℕ };

    ghost view = { λ w. (w.bytes.items, w.left) };

    ghost invariant = { λ w. vec_len w.bytes + w.left ≤ vec_capacity w.bytes };
}

impl Writer {
    /// Appends a number in its shortest form, if it fits.
    #[tactic(auto, unfolding(crate::specs::Written::put_short))]
    fn put(&mut self, number: u32) -> Option<()>
        requires { number < 2 ^ 29 }
        ensures { after result self.new ≡ put_short (short_unsigned number) self.old }
    {
        self.left = self.left.checked_sub(unsigned_len(number))?;
        put_unsigned(&mut self.bytes, number).ok()
    }

    /// Appends a signed number in its shortest form, if it fits.
    #[tactic(auto, unfolding(crate::specs::Written::put_short))]
    fn put_signed(&mut self, number: i32) -> Option<()>
        requires low { neg_ℤ (pos (2 ^ 28)) ≤ℤ number }
        requires high { number <ℤ pos (2 ^ 28) }
        ensures { after result self.new ≡ put_short (short_signed number) self.old }
    {
        self.left = self.left.checked_sub(signed_len(number))?;
        put_signed(&mut self.bytes, number).ok()
    }
}

impl PartSink for Writer {
    ghost use Rattle.sig_encoder.specs.Written.{writer_step};

    ghost step = { writer_step };

    #[tactic(auto, unfolding(crate::specs::Written::writer_step, crate::specs::Written::put_short))]
    fn byte(&mut self, code: u16) -> Option<()> {
        if code > 0xFF {
            return None;
        }
        self.left = self.left.checked_sub(1)?;
        self.bytes.push(code as u8).ok()
    }

    #[tactic(auto, unfolding(crate::specs::Written::writer_step))]
    fn number(&mut self, count: usize) -> Option<()> {
        let number = encoded_number(count)?;
        self.put(number)
    }

    #[tactic(auto, unfolding(crate::specs::Written::writer_step))]
    fn signed(&mut self, value: i32) -> Option<()> {
        match value {
            -0x1000_0000..0x1000_0000 => self.put_signed(value),
            _ => None,
        }
    }

    #[tactic(auto, unfolding(crate::specs::Written::writer_step, crate::specs::Lengths::number_of))]
    fn index(&mut self, token: Token) -> Option<()> {
        let number = index_number(token)?;
        self.put(number)
    }

    #[tactic(auto, unfolding(crate::specs::Written::writer_step))]
    fn broken(&mut self) -> Option<()> {
        Some(())
    }
}
