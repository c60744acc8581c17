//! Checks the rules for rows beside those for single cells, in place (ECMA-335 II.22).
//!
//! [`find_order`] finds which tables are in order of their keys. [`check_rows`] checks the order of those whose `Sorted` bit
//! is set, that each member has one owner, and that nested types follow the types that enclose them. Nothing here allocates.
//!
//! ```text
//! let in_order = find_order(&source);
//! check_rows(&source, &in_order)?;
//! ```
#![tactic(auto)]

mod all_rows;
mod key_order;
mod order;
mod runs;

pub use all_rows::check_rows;
pub use key_order::find_order;
