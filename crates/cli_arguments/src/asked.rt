ghost use Rattle.std.specs.Prelude.{◌≡◌};
ghost use Rattle.std.specs.Str.{bytes_eq};
ghost use Rattle.cli_arguments.specs.Asked.{subcommand_named};
ghost use Rattle.cli_arguments.specs.CommandLine.{name_of};

use crate::subcommands::{each_subcommand, usage_of};

/// The subcommands.
macro_rules! variants {
    ($($variant:ident $module:ident $row:ident,)*) => {
        &[$(Subcommand::$variant),*]
    };
}

/// What the arguments of a command line ask for.
#[derive(Drop)]
pub struct Ask<'a> {
    /// What to do.
    pub subcommand: Subcommand,
    /// Whether the file is a metadata root instead of a PE file.
    pub bare: bool,
    /// The first of the arguments that name files, if there is one. `explain` has none.
    pub file: Option<&'a str>,
    /// The argument after the file: the output path of `rewrite` and `embed`, the other file of `compare`.
    pub second: Option<&'a str>,
    /// The tokens of `token`, in the order given.
    pub tokens: Vec<&'a str>,
    /// The columns whose cells `compare` leaves out, as they were given.
    pub ignored: Vec<&'a str>,
    /// The largest number of bytes of texts and signatures that may be checked of each file, if given.
    pub budget: Option<u64>,
    /// What to print of the files, as it was given after them: the table of `show`, the row of `outline`, the type of
    /// `refs`, the offset of `where`.
    pub part: Option<&'a str>,
    /// Whether to print JSON Lines instead of text.
    pub json: bool,
    /// Whether `show` prints the names of columns.
    pub names: bool,
    /// Whether `show` and `root` print what can be read of a broken file before its first broken rule.
    pub until_fault: bool,
    /// Whether `check` prints what has the byte at the offset of a fault, and explains the fault.
    pub locates: bool,
    /// The faults to `explain`, as they were given; all if there is none.
    pub codes: Vec<&'a str>,
    /// The paths of all files to read, in the order given.
    pub files: Vec<&'a str>,
    /// What was given as the source of a list of files.
    pub files_from: Option<&'a str>,
    /// Whether `-0` was given: the standard input is a list of files, whose names end with NULs.
    pub null: bool,
    /// Whether `check` or `compare` was given `-q`: only the exit code says whether files break a rule, or differ.
    pub quiet: bool,
    /// The path of the root that `embed` takes instead of the canonical one.
    pub root: Option<&'a str>,
    /// Whether `embed` clears the strong name.
    pub unsigned: bool,
    /// Whether files may be directories, whose files are read.
    pub recursive: bool,
    /// The name of the resource whose content is written.
    pub extract: Option<&'a str>,
    /// Whether `outline` leaves tokens away.
    pub no_tokens: bool,
    /// Whether `outline` leaves out what is not visible outside of the assembly.
    pub public: bool,
    /// Whether `outline` prints in the order of names.
    pub sorted: bool,
}

/// The subcommands of the program.
#[derive(Clone, Copy, PartialEq, Eq)]
pub enum Subcommand {
    /// `root`: print the CLI header, and the version and the stream headers of the metadata root.
    Root,
    /// `info`: print what one wants to know first of an assembly.
    Info,
    /// `check`: check the file against the rules of the standard.
    Check,
    /// `show`: print each row of each table, or of one table.
    Show,
    /// `types`: print the types, with the number of their fields and methods.
    Types,
    /// `outline`: print the declarations of the assembly, or of one type or row.
    Outline,
    /// `refs`: print what the assembly refers to in other modules, or what of one type.
    Refs,
    /// `resources`: print where the resources are, or the content of one.
    Resources,
    /// `strings`: print the user strings.
    Strings,
    /// `token`: print the row or the user string that each token names.
    Token,
    /// `where`: print what has the byte at an offset.
    Where,
    /// `rewrite`: write the canonical metadata root of the file.
    Rewrite,
    /// `embed`: write a copy of the file with its canonical metadata root, or with another.
    Embed,
    /// `digest`: print the SHA-256 digest of the canonical metadata root of each file.
    Digest,
    /// `compare`: print what differs between the metadata of two files.
    Compare,
    /// `explain`: explain faults, or list all.
    Explain,
}

impl Subcommand {
    /// All subcommands, in the order of help.
    pub(crate) const ALL: &'static [Subcommand] = each_subcommand!(variants);

    /// The subcommand with this name.
    pub fn named(word: &str) -> Option<Subcommand>
        ensures { result ≡ subcommand_named word.now }
    {
        Subcommand::ALL
            .iter()
            .copied()
            .find(|subcommand| subcommand.has_name(word))
    }

    /// Whether this is its name.
    fn has_name(self, word: &str) -> bool
        ensures { result ≡ bytes_eq word.now (name_of self) }
    {
        word == usage_of(self).name
    }
}
