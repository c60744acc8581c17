//! The help of the program.

/// The commands, with the texts of their own help: a heading before each group, and the text after them.
macro_rules! commands {
    ($look:literal $check:literal $compare:literal $write:literal $after:literal) => {
        concat!(
            "\
Read, check and rewrite .NET metadata (ECMA-335, Partition II)

Usage: clim <COMMAND>

",
            $look,
            "  info       Print what an assembly is: its identity, headers and references
  root       Print the CLI header, the version and the stream headers
  show       Print the rows of all tables, or of one
  types      Print the types, with the number of their fields and methods
  outline    Print the declarations of the assembly, or of one type
  refs       Print what the assembly refers to in other modules
  resources  Print where the resources are, or write the content of one
  strings    Print the user strings, with their tokens
  token      Print the row or the user string of each token
  where      Print which header, stream or cell contains the byte at an offset
",
            $check,
            "  check      Check files against the rules of the standard
  explain    Explain faults, or list all
",
            $compare,
            "  compare    Compare the metadata of two files
  digest     Print the SHA-256 digest of the canonical root of each file
",
            $write,
            "  rewrite    Write the canonical metadata root of a file
  embed      Write a copy of a file with its canonical root, or with another

",
            $after
        )
    };
}

/// The commands, with the texts of their own help.
pub const SHORT_HELP: &str = commands!("" "" "" "" "\
'clim <COMMAND> --help' shows options and examples. 'clim --help' says more.
");

/// The commands in groups, with the texts of their own help, and the exit statuses.
pub(crate) const HELP: &str = commands!("Look:\n" "\nCheck:\n" "\nCompare:\n" "\nWrite:\n" "\
Help:
  help       Print this message or the help of the given subcommand(s)

Options:
  -h, --help     Print help; '-h' prints less of it
  -V, --version  Print version

'clim <COMMAND> --help' shows examples of each command. 'clim explain CODE'
explains a fault.

Exit status:
  0  success
  1  FILE breaks a rule of the standard, printed as
     'fault LAYER CODE at OFFSET: NAME'; or there is no row or string for HEX,
     no type NAME, or nothing at OFFSET; or the canonical root has more than
     2^30 bytes; or FILE and OTHER differ; or ROOT is refused, or does not fit
  2  usage error; FILE was not read
  3  I/O error, out of memory, or budget spent
The status for several files is the greatest of theirs.
FILE may be '-', the standard input.");
