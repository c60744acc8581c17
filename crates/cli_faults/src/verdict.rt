//! What is printed of a file without a fault.

/// What `clim check` prints of a file that breaks no rule.
pub const OK: &str = "ok";
