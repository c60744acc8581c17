//! The heaps of the metadata root (ECMA-335 II.24.2.3 to II.24.2.5): `#Strings`, `#Blob`, `#US` and `#GUID`, read and
//! written.
//!
//! [`text`], [`blob`], [`user_string`] and [`guid`] read the value at an index. It borrows the bytes of the heap, and
//! nothing is allocated. They succeed if and only if there is a value at the index. Otherwise the [`HeapFault`] says
//! what is missing. An absent heap has no bytes. [`Strings`] reads a heap once. If all of it is UTF-8, it then checks a
//! valid index in constant time.
//!
//! [`TextPool`], [`BlobPool`] and [`GuidPool`] build the heaps that are written. A value has one entry, in the order of
//! first use; a text that another one ends with is part of that one's entry. A [`HeapPlan`] is planned from all values at
//! once: it has the bytes and the indexes of the pool to which the same values were added in turn. It sorts and does not
//! hash, so its time does not depend on who chose the values. The length of the heap is known, and `Full` is returned,
//! before the heap is allocated. [`equal_blobs`] spares it the comparison of blobs that overlap in the heap that they are
//! read from; by [`WindowNames`] two parts of a heap are compared in a few steps. A [`UserHeap`] holds each user string that is pushed, and returns its offset, by which
//! the code of methods names it. `laws.rt` states that pooled values are read back, and that blobs and GUIDs keep their
//! index as a pool grows.
//!
//! ```text
//! text(b"\0a.dll\0", 1) == Ok("a.dll")
//! let pool = TextPool::plan(alloc, &["me", "Name"])?;
//! pool.add("me") == 3 && pool.bytes() == b"\0Name\0"
//! let plan = SortedBlobs::sort(alloc, &[b"a", b"", b"a"])?.lay_out(alloc)?;
//! plan.bytes() == b"\0\x01a" && plan.indexes() == [1, 0, 1]
//! ```
#![tactic(auto)]

mod blob_pool;
mod first_byte;
mod guid_pool;
mod heap_plan;
pub mod laws;
mod overlaps;
mod user_heap;
mod user_laws;
mod window_names;
mod windows;

pub use blob_pool::{BlobPool, write_blob};
pub use first_byte::begin;
pub use guid_pool::GuidPool;
pub use heap_entries::{
    HeapFault, Strings, Units, UserString, blob, guid, guid_text, text, user_string,
};
pub use heap_plan::{HeapPlan, SortedBlobs, SortedGuids};
pub use heap_pools::{HEAP_LIMIT, PoolError, SortedTexts, TextPool};
pub use overlaps::equal_blobs;
pub use packed::{Fault, FaultCode};
pub use user_heap::UserHeap;
pub use window_names::WindowNames;
