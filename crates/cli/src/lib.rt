//! The program `clim`, without the collection of its arguments.
//!
//! [`go`] is the whole run, from the arguments, which [`ask`] parses, to the exit code. Its contract says what goes to the
//! output, for what reading the file gave. The texts of help, usage errors and `explain` are tested, not proved.
//!
//! ```text
//! let status = go(&rt, &["clim", "root", "--bare", "one_module.root"], &mut out, &mut err);
//! // `out` holds "version v4.0.30319\nstream 80 40 #~\n..", `err` nothing, and `status` is 0
//! ```
#![tactic(auto)]

mod columns;
pub mod laws;
mod program;
mod task;
mod usage_text;

pub use cli_arguments::{Ask, Subcommand, ask};
pub use program::{Terminal, go, go_on};
