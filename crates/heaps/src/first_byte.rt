ghost use Rattle.std.specs.Prelude.{◌≡◌, OnOk, OnErr, IsOk};
ghost use Rattle.heaps.specs.FirstByte.{begun};

use std::alloc::AllocError;

/// Appends the first byte to a heap of blobs or user strings, if it has none yet (II.24.2.4).
///
/// # Errors
///
/// Out of memory. A heap that has its first byte never fails. The heap is then unchanged.
pub fn begin(heap: &mut Vec<u8>) -> Result<(), AllocError>
    ensures ok { OnOk result (heap.new.items ≡ begun heap.old.items) }
    ensures err { OnErr result (heap.new.items ≡ heap.old.items) }
    ensures begun { heap.old.items ≡ begun heap.old.items → IsOk result }
{
    if heap.is_empty() {
        heap.push(0)?;
    }
    Ok(())
}
