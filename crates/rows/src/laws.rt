//! Facts about the definitions of this crate, as public functions with an empty body.

pub use crate::put::rows_are_read_again;
