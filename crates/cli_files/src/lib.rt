//! The files of a run of `clim`: they are read and opened, directories are walked, and it is reported why a run stopped.
//!
//! [`read_file`] reads a file of at most 2^30 bytes, and [`read_into`] reads it into a buffer. A [`Stopped`] says why a run
//! stopped, with a [`Hint`] if there is one; [`status`] reports it and returns the exit code.
//!
//! ```text
//! let bytes = read_file(&rt, "one_module.dll")?;
//! status(rt.alloc(), Err(Stopped::at(stop, None, Input::File, &bytes)), &mut err) // 1 if `stop` is a fault, which `err` then has
//! ```
//!
//! A [`Walk`] goes over what is in a directory and in the directories in it, and says of each what it is, as a [`Visit`].
//! [`read_if_like`] reads a file, if its first bytes are those of the kind that is asked for. [`refuse`] reports what is [`Unread`].
//!
//! ```text
//! let mut walk = Walk::over(&rt, "lib")?;
//! walk.next(&rt) // Some(Visit::File("lib/one_module.dll", 1024))
//! ```
//!
//! [`open`] opens the bytes of a file, or of a metadata root alone, if they break no rule. [`heads_of`] reads only their headers. [`rows_of`] reads the rows of bytes
//! that break a rule for cells or a later one. None of them allocates.
//!
//! ```text
//! let view = open(&bytes, Input::File)?;
//! let (header, root) = heads_of(&bytes, Input::BareRoot)?; // no CLI header
//! ```
//!
//! [`go`] is a run of `clim check FILE` from its arguments to the exit code, and [`check_one`] the check of a file. What they print is
//! what `clim` prints, by the same functions. But they stand on few crates, so they are proved long before all of `clim`.
//!
//! ```text
//! let status = go(&rt, &["clim", "check", "one_module.dll"], &mut out, &mut err); // `out` holds "ok\n", and `status` is 0
//! ```
#![tactic(auto)]

mod check;
mod hint;
mod input;
mod opened;
mod stopped;
mod walk;

pub use check::{check_one, go};
pub use hint::{Hint, signature_of};
pub use input::{LIMIT, STANDARD_INPUT, read_file, read_into};
pub use opened::{Input, heads_of, open, open_within, root_of, rows_of};
pub use stopped::{Stopped, Unread, out_of_memory, refuse, refuse_words, status};
pub use walk::{Visit, Walk, read_if_like};
