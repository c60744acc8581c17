ghost use Rattle.std.specs.Prelude.{◌≡◌, ◌≤◌, ◌↔◌, IfOk, IsTrue, length, replicate};
ghost use Rattle.heap_entries.specs.Padding.{zero_padded};

use std::alloc::{AllocError, Global};

/// A copy of the bytes, padded with zeros to a multiple of four (II.24.2.2).
///
/// # Errors
///
/// Out of memory.
pub fn copy_padded(alloc: Global, bytes: &[u8]) -> Result<Vec<u8>, AllocError>
    ensures { IfOk result (λ copy. copy.items ≡ zero_padded bytes.now) }
{
    let padding = (4 - bytes.len() % 4) % 4;
    let mut copy = Vec::with_capacity(alloc, bytes.len() + padding)?;
    copy.extend_from_slice(bytes)?;
    copy.resize(bytes.len() + padding, 0)?;
    Ok(copy)
}

/// Whether bytes are equal once each is padded with zeros to a multiple of four (II.24.2.2). It does not allocate.
pub fn same_padded(left: &[u8], right: &[u8]) -> bool
    ensures { IsTrue result ↔ (zero_padded left.now ≡ zero_padded right.now) }
{
    if left.len() < right.len() {
        return has_more_zeros(right, left);
    }
    has_more_zeros(left, right)
}

/// Whether longer bytes are the shorter ones with zeros after them, no more than these are padded with.
fn has_more_zeros(longer: &[u8], shorter: &[u8]) -> bool
    requires { length shorter.now ≤ length longer.now }
    ensures { IsTrue result ↔ (zero_padded longer.now ≡ zero_padded shorter.now) }
{
    if longer.len().div_ceil(4) != shorter.len().div_ceil(4) {
        return false;
    }
    let (prefix, tail) = longer.split_at(shorter.len());
    if prefix != shorter {
        return false;
    }
    are_zeros(tail)
}

/// Whether all bytes are zero.
pub fn are_zeros(bytes: &[u8]) -> bool
    ensures { IsTrue result ↔ (bytes.now ≡ replicate (length bytes.now) 0) }
{
    bytes.iter().all(|byte| *byte == 0)
}
