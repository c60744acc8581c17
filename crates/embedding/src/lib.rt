//! Copies a PE file with another metadata root (ECMA-335 II.25).
//!
//! [`embed_canonical`] puts the canonical root of a file into it, and [`embed`] another root that leads into the file. The
//! result has the model of the root, and each byte of the file but for those that `specs/Embedded.antt` lists.
//! [`plan_embedding`] makes an [`EmbedPlan`]. Its length is known before a byte is written, and it does not allocate.
//!
//! The root goes where the old one is, if it fits there. If it does not, it goes into a new section, or else into the last
//! section, which becomes longer: that may be `.reloc`, which a loader may drop. The header of a new section goes only over
//! 40 zeros, because some linkers put bound imports there. A certificate after a longer last section must begin where that
//! section ends, or other bytes would be lost. A signature of the file is no longer right, so the directory of the
//! Certificate Table is cleared. The checksum is computed again if it was not 0.
//!
//! What may overlap the old root is taken to overlap it: bodies with more than 64 data sections, and field data if FieldRVA
//! and ClassLayout have more than 2^26 pairs of rows. Of code that is not CIL, and of data of unknown size, only the first
//! byte counts. The result is defined by its bytes, because a definition by its model alone would let other bytes change.
//!
//! ```text
//! let plan = plan_embedding(&file, &root, StrongName::Keep)?; // or why it is refused: an `EmbedError`
//! let bytes = plan.make(alloc)?;                              // `plan.len()` bytes
//! open_image(&bytes)                                          // Ok: the view of `root`
//! ```
#![tactic(auto)]

mod change;
mod error;
mod fill;
pub mod laws;
mod make_copy;
mod matching;
mod plan;
mod send;
mod slot;
mod slots;
mod strong_name;

pub use error::EmbedError;
pub use make_copy::{embed, embed_canonical};
pub use plan::{EmbedPlan, plan_embedding};
pub use strong_name::StrongName;
