//! The strings heap that is written, and what all heaps that are written are (ECMA-335 II.24.2.3 to II.24.2.5).
//!
//! A [`TextPool`] holds each text once, in the order of first use. A text that another text ends with has no entry of its
//! own. The laws say that what is pooled is read back. Of the texts of another heap, only the longest one before each NUL
//! is sorted by its bytes, so texts that overlap cost no more than their number. [`sorted_uses`] and the calls beside it
//! are for `heaps`, which has the heaps of blobs and GUIDs.
//!
//! ```text
//! let pool = TextPool::plan(alloc, &["me", "Name"])?;
//! pool.add("me") == 3 && pool.bytes() == b"\0Name\0"
//! ```
#![tactic(auto)]

mod ending;
mod heap_texts;
pub mod laws;
mod pool_error;
mod text_groups;
mod text_plan;
mod text_pool;

pub use heap_texts::own_firsts;
pub use pool_error::{HEAP_LIMIT, PoolError};
pub use text_plan::{RankedTexts, Use, sorted_uses};
pub use text_pool::{SortedTexts, TextPool};
