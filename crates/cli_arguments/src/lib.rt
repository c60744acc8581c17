//! The arguments of the command line of `clim`, and its help.
//!
//! [`ask`] parses the arguments. By its contract the subcommand, flags and values are those that `clap` gives for them.
//!
//! ```text
//! let ask = ask(alloc, &["clim", "token", "--bare", "one_module.root", "00000001"])?;
//! // `ask.subcommand` is `Token`, `ask.bare` true, `ask.file` the file's path and `ask.tokens` has the token
//! ```
#![tactic(auto)]

mod argument;
mod arguments;
mod asked;
mod help;
mod parts;
mod subcommands;

pub use arguments::ask;
pub use asked::{Ask, Subcommand};
pub use help::SHORT_HELP;
