//! Writes the canonical root of a metadata (ECMA-335 II.24.2), into memory or through a writer that may fail.
//!
//! The metadata is a `Model`, or a `View` of a root that is open in place. Then no model is made that owns its cells, and
//! the bytes are those of the view's one model.
//!
//! [`write_root`] and [`write_root_within`] return the bytes. Their one model is the one that was written.
//! [`write_root_to`] sends them through a [`Sink`], such as [`Counted`] over any writer. [`prepare`] makes the bytes
//! first, so once a file is open only [`Prepared::send`] is left, which does not allocate. A root that is too long and
//! lack of memory are reported before the first byte is sent.
//!
//! An [`Outline`] has what the plan of a root needs besides the pools. [`RootPlan::of`] plans the root: its length, and the
//! length of each stream. It fails if and only if the root exceeds a limit. [`make`] makes the root from its plan, and
//! allocates its memory at once. A [`Sink`] accepts a prefix of the bytes at each call, and counts its failures. Sending
//! stops at the first failure, and reports how many bytes were sent. That number is exact, and no byte is sent twice.
//!
//! ```text
//! let prepared = prepare(alloc, &model, 1 << 20)?;        // TooLarge: it has more than 2^20 bytes
//! let mut sink = Counted::new(file);
//! match prepared.send(&mut sink) {
//!     Ok(()) => ..,                                       // all prepared.len() bytes were sent
//!     Err(WriteError::Device { given }) => ..,            // the first `given` bytes were sent
//!     Err(_) => ..,                                       // never
//! }
//! ```
#![tactic(auto)]

mod canonical_root;
mod counted;
mod error;
mod heap_lens;
pub mod laws;
mod outline;
mod plan_error;
mod planned;
mod prepared;
mod root_outline;
mod root_plan;
mod roots;
mod send;
mod sink;
mod stream_lens;
mod tables_plan;
mod tables_reported;

pub use canonical_root::prepare;
pub use counted::Counted;
pub use error::WriteError;
pub use plan_error::PlanError;
pub use prepared::{Prepared, make};
pub use root_outline::Outline;
pub use root_plan::RootPlan;
pub use roots::{write_root, write_root_to, write_root_within};
pub use send::{Stopped, send_all};
pub use sink::Sink;
pub use tables_plan::TablesPlan;
