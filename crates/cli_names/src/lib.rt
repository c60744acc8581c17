//! What an argument of `clim` names.
//!
//! [`token_of`], [`offset_of`] and [`row_of`] read numbers, [`code_of`] and [`table_of`] find a fault and a table by
//! number or name, and [`names_of_type`] takes the full name of a type apart. Nothing here allocates.
//!
//! ```text
//! token_of("2000005")                  // Some(0x0200_0005)
//! table_of("TypeDef") == table_of("02")
//! names_of_type("System.IO.File")      // ("System.IO", "File")
//! ```
//!
//! [`found_row`] finds the row of a view that an argument means: a type, by a path of names or a name alone, or any row by its
//! token (ECMA-335 II.22.32, II.22.37, III.1.9). [`wanted_types`] says which types of other modules it means, and [`belongs`] what
//! belongs to them (II.22.25, II.22.38).
//!
//! ```text
//! let token = found_row(alloc, &view, Subject::Path("Hello.Greeter/Settings"))?; // 02000003
//! let types = wanted_types(alloc, Subject::Path("System.Object"))?;
//! belongs(&view, &types, member) // whether a MemberRef is one of System.Object
//! ```
//!
//! A [`Source`] finds what is printed of a view: which rows have a line by [`OutlineOptions`], and in which order they stand.
//! [`is_chosen`] says whether a row is among those of a [`Choice`], and [`run_of`] which the members of an owner are.
#![tactic(auto)]

mod chosen;
mod names;
mod numbers;
mod orders;
mod path;
mod refs;
mod source;
mod subject;

pub use chosen::{Choice, is_chosen};
pub use names::{code_of, names_of_type, table_named, table_of};
pub use numbers::{offset_of, row_of, token_of};
pub use orders::{TableOrder, run_of};
pub use refs::{Wanted, belongs, finds, wanted_types};
pub use source::{OutlineOptions, Rows, Sorting, Source, Tokens};
pub use subject::{Subject, found_row};
