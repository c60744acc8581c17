//! What `clim rewrite`, `embed` and `compare` do with files: they write canonical roots, or compare metadata.
//!
//! [`rewrite_file`] writes the canonical root of a file (ECMA-335 II.24.2), [`embed_file`] a copy of the file with it, and
//! [`compare_files`] prints what differs between two files. [`canonical_root`] and the budget of [`check_within`] serve the
//! reports of `cli_runs` too.
//!
//! ```text
//! rewrite_file(&rt, "out.root", "one_module.dll", Input::File, None, &mut out)?; // `out` holds "wrote 144 bytes\n"
//! ```
//!
//! `compare` prints a line for each difference (II.22 and II.24.2):
//!
//! ```text
//! version: v2.0.50727 | v4.0.30319         {"difference":"Version","left":"v2.0.50727","right":"v4.0.30319"}
//! user strings: 16 | 16 at 5               {"difference":"UserStrings","offset":5}
//! rows 06 MethodDef: 5 | 6                 {"difference":"RowCount","table":"MethodDef","left":5,"right":6}
//! 02000001 Flags: 1048577 | 1048576        {"difference":"Cell","token":"02000001","column":"Flags","left":1048577,"right":1048576}
//! ```
//!
//! `rewrite` and `embed` create, truncate or replace the file that they write, and refuse the path of the standard output.
#![tactic(auto)]

/// Parts of a line, one after another.
macro_rules! parts {
    ($($part:expr;)*) => {
        [$($part),*]
    };
}

mod budget;
mod compare;
mod differences;
mod embed;
mod output_file;
mod rewrite;

pub use budget::{check_within, is_spent};
pub use compare::{CompareOptions, Output, compare_files};
pub use embed::{EmbedOptions, embed_file};
pub use rewrite::{canonical_root, rewrite_file};
