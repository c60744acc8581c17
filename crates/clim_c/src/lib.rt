//! The C interface of `opening`: checks a file, opens it and reads it in place (ECMA-335 II.22 to II.25).
//!
//! `c/clim.h` declares the exports, says what a caller must ensure, and has an example. Only `clim_canonical_root`,
//! `clim_digest`, `clim_compare`, `clim_tables`, `clim_embed` and `clim_declaration` allocate. Nothing is kept between
//! calls, except in what the caller holds. Nothing checks that a C caller meets a precondition, so no function has one: each
//! tests its arguments, and its result says whether it rejected them.
#![tactic(auto)]

pub mod attributes;
pub mod canonical_root;
pub mod cells;
pub mod compared;
pub mod embedded;
pub mod fault;
pub mod file_offset;
pub mod given_tables;
pub mod look_ups;
pub mod names;
pub mod opened;
pub mod read_header;
pub mod texts;
pub mod view;
pub mod view_parts;

pub use c_values::{
    ClimAttributeItem, ClimCell, ClimDifference, ClimDirectory, ClimHeader, ClimLocation,
    ClimRefusal, ClimRow,
};
