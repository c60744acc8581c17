ghost use Rattle.std.specs.Prelude.{◌≡◌, ◌≤◌, ◌∷◌, ◌++◌, [], length, IfOk};
ghost use Rattle.heap_entries.specs.Padding.{zero_padded};
ghost use Rattle.schema.specs.Sizes.{IsWidth};
ghost use Rattle.schema.specs.LaidOut.{number_bytes};
ghost use Rattle.root_writer.specs.Canonical.{ended};
ghost use Rattle.root_writer.specs.Written.{Puts, padding};

use std::alloc::{AllocError, Global};
use std::marker::Model;

/// Bytes that are written in sequence. The memory for them is allocated once, so no write can fail.
#[derive(Drop)]
pub struct Writer {
    bytes: Vec<u8>,
}

impl Model for Writer {
    ghost use Rattle.std.specs.Prelude.{◌-◌, vec_len, vec_capacity};
    ghost use Rattle.root_writer.specs.Written.{Written};

    ghost Value = { Written };

    ghost view = { λ writer. record { bytes = writer.bytes.items; room = vec_capacity writer.bytes - vec_len writer.bytes } };
}

impl Writer {
    /// A writer with room for this number of bytes.
    ///
    /// # Errors
    ///
    /// Only if out of memory.
    pub fn with_room(alloc: Global, room: usize) -> Result<Writer, AllocError>
        ensures bytes { IfOk result (λ writer. writer.bytes ≡ []) }
        ensures room { IfOk result (λ writer. room ≤ writer.room) }
    {
        Ok(Writer {
            bytes: Vec::with_capacity(alloc, room)?,
        })
    }

    /// The bytes that were written.
    pub fn into_bytes(self) -> Vec<u8>
        ensures { result.items ≡ self.bytes }
    {
        self.bytes
    }

    /// Writes bytes.
    pub fn put(&mut self, bytes: &[u8])
        requires { length bytes.now ≤ self.old.room }
        ensures { Puts self.old self.new bytes.now }
    {
        let _ = self.bytes.extend_from_slice(bytes);
    }

    /// Writes the low `width` bytes of a number, lowest first (II.24.2.6).
    pub fn put_number(&mut self, width: usize, number: u32)
        requires known { IsWidth width }
        requires room { width ≤ self.old.room }
        ensures { Puts self.old self.new (number_bytes width number) }
    {
        let bytes = number.to_le_bytes();
        match width {
            1 => self.put(&bytes[..1]),
            2 => self.put(&bytes[..2]),
            _ => self.put(&bytes),
        }
    }

    /// Writes a number in eight bytes, lowest first.
    pub fn put_long(&mut self, number: u64)
        requires { 8 ≤ self.old.room }
        ensures { Puts self.old self.new (number_bytes 8 number) }
    {
        self.put(&number.to_le_bytes());
    }

    /// Writes the zeros that pad this number of bytes to a multiple of four.
    pub fn put_padding(&mut self, count: usize)
        requires room { length (padding count) ≤ self.old.room }
        ensures { Puts self.old self.new (padding count) }
    {
        let zeros = [0; 4];
        self.put(&zeros[..(4 - count % 4) % 4]);
    }

    /// Writes bytes, padded with zeros to a multiple of four (II.24.2.2).
    pub fn put_padded(&mut self, bytes: &[u8])
        requires { length (zero_padded bytes.now) ≤ self.old.room }
        ensures { Puts self.old self.new (zero_padded bytes.now) }
    {
        self.put(bytes);
        self.put_padding(bytes.len());
    }

    /// Writes a text and its terminating NUL, padded with zeros to a multiple of four.
    pub fn put_ended(&mut self, text: &str)
        requires room { length (ended text.now) ≤ self.old.room }
        ensures { Puts self.old self.new (ended text.now) }
    {
        self.put(text.as_bytes());
        self.put(&[0]);
        self.put_padding(text.len() + 1);
    }
}
