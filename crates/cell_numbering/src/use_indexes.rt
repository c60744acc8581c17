ghost use Rattle.std.specs.Prelude.{◌≡◌, IfOk, map, slice_index};

use std::alloc::{AllocError, Global};

/// The index of each use: that of the value which it refers to, or 0 if there is none.
pub fn indexes_of_uses(
    alloc: Global,
    of_use: &[usize],
    of_values: &[u32],
) -> Result<Vec<u32>, AllocError>
    ensures { IfOk result (λ indexes. indexes.items ≡ map (slice_index of_values.now) of_use.now) }
{
    let mut indexes = Vec::with_capacity(alloc, of_use.len())?;
    for value in of_use {
        indexes.push(of_values.get(*value).copied().unwrap_or(0))?;
    }
    Ok(indexes)
}
