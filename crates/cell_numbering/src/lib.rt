//! Plans the heaps of a metadata's canonical root, and the number of each cell, before any byte is written (ECMA-335
//! II.24.2.3 to II.24.2.6).
//!
//! [`pools_of`] serves whatever holds a metadata: a root that is open in place, or tables in memory. It visits the rows
//! twice. First it collects the texts, GUIDs and blobs in order of use, and plans each heap from all its values, by
//! sorting. Then it numbers each cell, by table, row and column. The number of a text, GUID or blob is the next index of
//! its plan.
//!
//! No value is hashed, and none is copied, except a signature whose blob is not its canonical encoding. Values that are
//! read from a heap are taken once for each index there. So a text that many rows name is read once. A blob that many rows
//! name is read and decoded once for each kind of column. To know the indexes takes four bytes for each byte of a heap.
//! Encodings that are copied take no more memory than some bytes for each use and the heap of the blobs so far: then equal
//! ones are dropped.
//!
//! ```text
//! let (texts, numbering) = pools_of(alloc, &source)?;
//! numbering.numbers() // the numbers of the rows, by table, row and column
//! ```
#![tactic(auto)]

mod blob_bytes;
mod blob_use;
mod blob_uses;
mod equal_uses;
mod heap_uses;
mod index_columns;
mod last_uses;
mod numbers;
mod numbers_so_far;
mod plain_columns;
mod pools;
mod start_groups;
mod text_uses;
mod use_indexes;
mod written_blobs;

pub use pools::pools_of;
