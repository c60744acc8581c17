//! Facts about the definitions of this crate, as public functions with an empty body.

pub use crate::user_laws::pushed_string_is_found;
pub use heap_entries::laws::entries_are_one;
pub use heap_pools::laws::{
    heaps_grow, pooled_blob_is_found, pooled_guid_is_found, used_text_is_found,
};
