//! The canonical root of a model, its one encoding, and a writer of its bytes in sequence (ECMA-335 II.24.2).
//!
//! `specs/Canonical.antt` defines the bytes that a valid model is written as. The canonical root of a valid model has this
//! model and no other: see [`canonical_root_has_its_model`](laws::canonical_root_has_its_model) and
//! [`canonical_root_is_one`](laws::canonical_root_is_one).
//!
//! A [`Numbering`] has the planned heaps of blobs and GUIDs, and the numbers of all cells, one per column.
//! `cell_numbering` makes it for a model, and for a root that is read in place.
//!
//! A [`Writer`] has room for all bytes before it writes the first one, so only [`Writer::with_room`] can fail. Its
//! calls write what `Canonical.antt` defines for a root ([`canonical_roots_are_put`]). They need the sizes of the streams, the
//! row counts, and the numbers of the cells as one list ([`numbers_are_put`]).
//!
//! ```text
//! let mut writer = Writer::with_room(alloc, len)?;
//! writer.put_root(&parts);    // the version, sizes, layout, numbers and heaps: a `RootParts`
//! let bytes = writer.into_bytes();
//! ```
#![tactic(auto)]

mod canonical_laws;
mod heading;
mod held;
pub mod laws;
mod numbering;
mod numbering_laws;
mod references;
mod root_parts;
mod sizes;
mod table_header;
mod table_rows;
mod writer;

pub use heading::heading_len;
pub use held::HeldKinds;
pub use numbering::Numbering;
pub use references::row_number;
pub use root_parts::RootParts;
pub use sizes::StreamSizes;
pub use table_header::bit;
pub use writer::Writer;
