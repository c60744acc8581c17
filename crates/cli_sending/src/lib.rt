//! Sends texts to the standard output and to standard error, and makes them readable there.
//!
//! [`send`] and [`finish`] send bytes to the output. Their contracts also say what went out if that fails. [`send_message`]
//! sends the lines of a message to standard error by one write.
//!
//! ```text
//! finish(b"size 12\n", &mut out)?;          // all of it went out, and the writer is flushed
//! send_message(alloc, &failure, &mut err)?; // "error: out of memory"
//! ```
//!
//! The escapes of names, which `specs/Escapes.antt` defines, are read back where they are not needed. JSON has escapes of its own: [`text_as_is`] reads back those of all bytes but quotes and backslashes. A terminal gets
//! letters beyond ASCII as they are, if it reads UTF-8 ([`is_utf8_locale`]): [`show_letters`] reads back their escapes, and
//! leaves those of controls, of marks of direction and of all that has no picture.
//!
//! ```text
//! Caf\xc3\xa9\xe2\x80\xae  ->  Café\xe2\x80\xae
//! ```
#![tactic(auto)]

mod as_is;
mod escapes;
mod letters;
mod locale;
mod message;
mod sending;

pub use as_is::text_as_is;
pub use letters::{is_letter, show_letters};
pub use locale::is_utf8_locale;
pub use message::send_message;
pub use sending::{finish, send};
