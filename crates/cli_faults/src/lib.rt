//! Reports faults: why a run of `clim` failed, its exit code, and what each fault and rule means.
//!
//! A [`Failure`] is the result of a run that failed. Its `Display` is the line for standard error, and
//! [`Failure::status`] is the exit code. [`explain`] returns the texts of a rule, [`code_of_number`] the rule with a
//! number, and [`all_codes`] all rules. [`Escaped`] is a text of a stranger as the program prints it. [`OK`] is printed of a
//! file without a fault. Nothing here allocates.
//!
//! ```text
//! let code = code_of_number(501)?;
//! let explained = explain(code);           // explained.summary is "no NUL ends the text of an index into '#Strings'"
//! let failure = Failure::from(fault);      // displayed as "fault 7 701 at 2114: BadSignature"
//! failure.status() == 1
//! printed(out.flush())?;                   // Failure::CannotWriteOutput if the device is full
//! ```
#![tactic(auto)]

mod escaped;
mod explained;
mod failure;
mod file_error;
mod misfit;
mod numbered;
mod rules;
mod stop;
mod usage_error;
mod verdict;

pub use escaped::{Escaped, EscapedBytes};
pub use explained::{Explanation, explain};
pub use failure::{Failure, printed};
pub use file_error::{FileError, Reason};
pub use misfit::Misfit;
pub use numbered::{all_codes, code_of_number};
pub use packed::FaultCode;
pub use stop::Stop;
pub use usage_error::UsageError;
pub use verdict::OK;
