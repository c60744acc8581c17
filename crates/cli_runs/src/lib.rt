//! What `clim` prints of files and their bytes.
//!
//! [`report_on`] prints a [`Report`] on the bytes of a file, and [`run_files`] and [`run_listed`] read files and report on each.
//! [`extract_file`] writes the content of a resource, and [`explain_rules`] prints what rules say. `specs/Reports.antt` says what a report prints, and when it prints nothing.
//!
//! ```text
//! let request = Request { report: Report::Listing(Listing::Types), form: Form::Text, naming: Naming::Alone,
//!     directories: Directories::Refused, input: Input::File, budget: None };
//! run_files(&rt, &request, &["one_module.dll"], &mut out, &mut err) // a line for each type of the file, and the exit code 0
//! ```
#![tactic(auto)]

mod files;
mod listed;
mod print_check;
mod print_report;
mod printed;
mod report;
mod tree;

pub use files::{extract_file, run_files};
pub use listed::{Separator, run_listed};
pub use printed::{explain_rules, report_on};
pub use report::{Directories, Ended, Listing, Naming, Report, Request, Verdict};
