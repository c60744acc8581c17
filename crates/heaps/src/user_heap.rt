ghost use Rattle.std.specs.Prelude.{◌≡◌, ◌≤◌, ◌<◌, ◌+◌, ◌^◌, ◌++◌, ◌∷◌, ◌↔◌, [], Err, length, vec_len, take, flat_map, IfOk, IfErr, OnOk, OnErr, IsTrue, if◌then◌else◌};
ghost use Rattle.std.specs.List.{list_any};
ghost use Rattle.heap_pools.specs.declared.pool_error.PoolError.TheVariants.{Full};
ghost use Rattle.heap_entries.specs.Padding.{zero_padded};
ghost use Rattle.heaps.specs.FirstByte.{begun};
ghost use Rattle.heap_entries.specs.Units.{unit_bytes};
ghost use Rattle.heaps.specs.UserEntries.{is_special, last_byte, user_entry, user_length};

use crate::first_byte::begin;
use heap_pools::{HEAP_LIMIT, PoolError};
use packed::{BLOB_LIMIT, put_unsigned, unsigned_len};
use std::alloc::{AllocError, Global};
use std::marker::Model;

/// The heap of user strings that is written, `#US` (II.24.2.4).
///
/// Contracts see its bytes. The first of them is 0, even if nothing was pushed.
#[derive(Drop)]
pub struct UserHeap {
    bytes: Vec<u8>,
}

impl Model for UserHeap {
    ghost use Rattle.std.specs.Prelude.{List, ℕ};

    ghost Value = { List ℕ };

    ghost use Rattle.heaps.specs.UserHeap.{user_heap_of, IsUserHeap};

    ghost view = { user_heap_of };

    ghost invariant = { IsUserHeap };
}

/// Whether a unit makes the last byte of its string 1: its high byte is not 0, or its low byte is
/// one that needs special handling (II.24.2.4).
fn is_special_unit(unit: u16) -> bool
    ensures { result ≡ is_special unit }
{
    unit / 0x100 != 0 || matches!(unit % 0x100, 0x01..=0x08 | 0x0E..=0x1F | 0x27 | 0x2D | 0x7F)
}

/// Whether one of the units is special.
fn has_special_unit(units: &[u16]) -> bool
    ensures { result ≡ list_any is_special units.now }
{
    units.iter().any(|unit| is_special_unit(*unit))
}

/// The last byte of a user string.
fn last_byte_of(units: &[u16]) -> u8
    ensures { result ≡ last_byte units.now }
{
    u8::from(has_special_unit(units))
}

/// Appends units, the lower byte of each first.
fn put_units(bytes: &mut Vec<u8>, units: &[u16]) -> Result<(), AllocError>
    ensures ok { OnOk result (bytes.new.items ≡ bytes.old.items ++ flat_map unit_bytes units.now) }
    ensures err { OnErr result (take (vec_len bytes.old) bytes.new.items ≡ bytes.old.items) }
{
    for unit in units {
        bytes.extend_from_slice(&unit.to_le_bytes())?;
    }
    Ok(())
}

/// Appends the entry of a user string. Before the first one it appends the first byte of the heap.
fn write_user_string(bytes: &mut Vec<u8>, units: &[u16]) -> Result<(), AllocError>
    requires { user_length units.now < 2 ^ 29 }
    ensures ok { OnOk result (bytes.new.items ≡ begun bytes.old.items ++ user_entry units.now) }
    ensures err { OnErr result (take (vec_len bytes.old) bytes.new.items ≡ bytes.old.items) }
{
    begin(bytes)?;
    put_unsigned(bytes, 2 * units.len() as u32 + 1)?;
    put_units(bytes, units)?;
    bytes.push(last_byte_of(units))?;
    Ok(())
}

/// Appends a user string like `write_user_string`. If this fails, the heap is unchanged.
fn append_user_string(bytes: &mut Vec<u8>, units: &[u16]) -> Result<(), AllocError>
    requires { user_length units.now < 2 ^ 29 }
    ensures ok { OnOk result (bytes.new.items ≡ begun bytes.old.items ++ user_entry units.now) }
    ensures err { OnErr result (bytes.new.items ≡ bytes.old.items) }
{
    let len = bytes.len();
    let written = write_user_string(bytes, units);
    if written.is_err() {
        bytes.truncate(len);
    }
    written
}

impl UserHeap {
    ghost use Rattle.heaps.specs.UserHeap.{IsPastLimit};

    /// A heap without user strings. The call does not allocate.
    pub fn new(alloc: Global) -> UserHeap
        ensures { result ≡ 0 ∷ [] }
    {
        UserHeap {
            bytes: Vec::new(alloc),
        }
    }

    /// Appends a user string, which may be empty. Returns its index, which is its offset in bytes (II.24.2.4).
    ///
    /// # Errors
    ///
    /// `Full` if the string would have more than 2^29 - 1 bytes, or the heap more than 2^30 bytes. This is checked
    /// before it allocates. `Memory` if it is out of memory. The heap is then unchanged.
    pub fn push(&mut self, units: &[u16]) -> Result<u32, PoolError>
        ensures heap { OnOk result (self.new ≡ self.old ++ user_entry units.now) }
        ensures offset { IfOk result (λ offset. offset ≡ length self.old) }
        ensures err { OnErr result (self.new ≡ self.old) }
        ensures full { (result ≡ Err PoolError.Full) ↔ IsPastLimit self.old units.now }
    {
        let start = self.bytes.len().max(1);
        if units.len() > BLOB_LIMIT / 2 {
            return Err(PoolError::Full);
        }
        let len = 2 * units.len() + 1;
        if HEAP_LIMIT - start < unsigned_len(len as u32) + len {
            return Err(PoolError::Full);
        }
        append_user_string(&mut self.bytes, units)?;
        Ok(start as u32)
    }

    /// The heap, padded with zeros to a multiple of four bytes.
    ///
    /// # Errors
    ///
    /// The unchanged heap, if it is out of memory.
    pub fn padded(self) -> Result<Vec<u8>, UserHeap>
        ensures ok { IfOk result (λ bytes. bytes.items ≡ zero_padded self) }
        ensures err { IfErr result (λ heap. heap ≡ self) }
    {
        let UserHeap { mut bytes } = self;
        let len = bytes.len().max(1).next_multiple_of(4);
        match bytes.extend_from_slice(&[0; 4][..len - bytes.len()]) {
            Ok(()) => Ok(bytes),
            Err(_) => Err(UserHeap { bytes }),
        }
    }
}
