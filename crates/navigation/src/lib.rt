//! From a row to the rows that belong to it (ECMA-335 II.22): the owner of a member, the type that encloses another,
//! and the properties and events of a type.
//!
//! The look-ups are written and proved once, for a root that was opened in place and for tables in memory. They do not
//! allocate, and they return on every valid metadata. [`Neighbours`] is a view that finds owners, and the rows that refer
//! to a row, in any order by binary search.
//!
//! ```text
//! let class = type_of_method(&source, method);
//! let outer = enclosing_type(&source, class)?; // None if the type is not nested
//! for property in properties_of_type(&source, class) { .. }
//! ```
#![tactic(auto)]

pub mod cells;
mod keyed;
mod links;
mod maps;
mod neighbours;
mod neighbours_held;
mod nesting;
mod owners;
mod sorted_links;
mod starts;

pub use keyed::{KeyedRow, sort_by_key, with_key};
pub use links::Link;
pub use maps::{events_of_type, properties_of_type, type_of_event, type_of_property};
pub use metadata_source::{MemberList, ReadCells, ReadMetadata};
pub use neighbours::Neighbours;
pub use nesting::{enclosing_type, enclosing_type_ref};
pub use owners::{
    event_map_of_event, method_of_param, property_map_of_property, type_of_field, type_of_method,
};
