//! What to print of a file, and how printing it ends.
use cli_cells::Names;
use cli_faults::Stop;
use cli_files::Input;
use cli_lines::Form;
use cli_outline::{OutlineOptions, Subject};
use std::alloc::Global;
use table_schema::TableId;

/// What to print of the tables of a file. Nothing is printed of a file that breaks a rule.
#[derive(Clone, Copy)]
pub enum Listing {
    /// The rows of all tables, or of one (II.22).
    Show(Option<TableId>, Names),
    /// The types, one per line (II.22.37).
    Types,
    /// What is referred to in other modules.
    Refs,
}

/// What is printed of a check.
#[derive(Clone, Copy)]
pub enum Verdict {
    /// Nothing: the exit code alone says whether a rule is broken.
    Quiet,
    /// A line.
    Line,
    /// A line. Of a fault also what has the byte at its offset, and what the rule says.
    Explained,
}

/// What to print of a file.
#[derive(Drop)]
pub enum Report<'a> {
    /// The CLI header, the version and the stream headers (II.25.3.3, II.24.2.1).
    Root,
    /// The same; of bytes that break a rule for them what can be read before it.
    RootUntilFault,
    /// What one wants to know first of an assembly: its identity, its headers and its references.
    Info,
    /// The user strings (II.24.2.4).
    Strings,
    /// Where the resources of a PE file are (II.22.24).
    Resources,
    /// What the tables have.
    Listing(Listing),
    /// Whether it breaks a rule.
    Check(Verdict),
    /// The rows of all tables, or of one, that come before its first broken rule.
    ShowUntilFault(Option<TableId>, Names),
    /// The declarations.
    Outline(OutlineOptions),
    /// The declarations of one type, or of another row.
    OutlineOf(Subject<'a>, OutlineOptions),
    /// What is referred to of one type of other modules.
    RefsOf(Subject<'a>),
    /// The row or the user string that each of these tokens names.
    Tokens(Vec<u32>),
    /// What has the byte at this offset.
    Where(u64),
    /// The digest of its canonical root.
    Digest,
}

/// Whether a file is named where it is reported on.
#[derive(Clone, Copy)]
pub enum Naming {
    /// It is the only one, so its name is not printed.
    Alone,
    /// It may be one of several. Its lines and failures have its name.
    Named,
}

/// What becomes of a directory that is named as a file.
#[derive(Clone, Copy)]
pub enum Directories {
    /// It cannot be read.
    Refused,
    /// The files in it are read, and those in the directories in it. Files that do not begin like one are passed over.
    Walked,
}

/// What is asked of each file.
#[derive(Drop)]
pub struct Request<'a> {
    /// What to print of it.
    pub report: Report<'a>,
    /// The form of what is printed.
    pub form: Form,
    /// Whether it is named.
    pub naming: Naming,
    /// What becomes of it if it is a directory.
    pub directories: Directories,
    /// What its bytes are.
    pub input: Input,
    /// The largest number of bytes of texts and signature blobs that are checked, if there is a limit.
    pub budget: Option<u64>,
}

/// A report on the bytes of the file with this name.
#[derive(Clone, Copy)]
pub(crate) struct Job<'a> {
    pub(crate) alloc: Global,
    pub(crate) request: &'a Request<'a>,
    pub(crate) name: &'a str,
    pub(crate) bytes: &'a [u8],
}

/// How a report on the bytes of a file ended.
#[derive(Clone, Copy)]
pub enum Ended<'a> {
    /// Its lines were printed.
    Printed,
    /// Lines were printed, and then it stopped.
    Stopped(Stop<'a>),
    /// It stopped before a line was printed.
    Refused(Stop<'a>),
}
