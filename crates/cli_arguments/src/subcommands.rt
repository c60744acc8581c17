//! The subcommands as rows of a table: the arguments of each and its help, one module for each group of them in help.
ghost use Rattle.std.specs.Prelude.{◌≡◌};
ghost use Rattle.cli_arguments.specs.CommandLine as line;

use crate::argument::Argument;
use crate::asked::Subcommand;

/// An argument: its id, its kind and its help.
macro_rules! argument {
    ($id:literal $kind:ident$(($name:literal))? $help:literal) => {
        crate::argument::Argument {
            id: $id,
            kind: crate::argument::Kind::$kind$(($name))?,
            help: $help,
        }
    };
}

/// The arguments of a report on files: those that name the files, what all reports take, and others.
macro_rules! reports {
    ($files:expr $(, $other:expr)*) => {
        &[$files, BARE, BUDGET, FILES_FROM, NULL, RECURSIVE, JSON $(, $other)*]
    };
}

/// A row of the table: the name, what it does, the arguments, and what it prints. What a report says of several files is
/// between two texts; it may be that a file has no such type.
macro_rules! usage {
    ($name:literal $about:literal $arguments:expr, $before:literal $after:literal) => {
        usage![$name $about $arguments, concat!($before, "
For several FILEs each line begins with 'FILE: '. A FILE that breaks a rule or
cannot be read is reported to standard error with its name, and the next one
follows. The exit status is the greatest. 'clim check --help' says what '-r',
'-0' and '--files-from' read.

", $after)]
    };
    ($name:literal $about:literal $arguments:expr, $before:literal or_no_type $after:literal) => {
        usage![$name $about $arguments, concat!($before, "
For several FILEs each line begins with 'FILE: '. A FILE that breaks a rule, has
no such type or cannot be read is reported to standard error with its name, and
the next one follows. The exit status is the greatest. 'clim check --help' says
what '-r', '-0' and '--files-from' read.

", $after)]
    };
    ($name:literal $about:literal $arguments:expr, $output:expr) => {
        (Usage { name: $name, about: $about, arguments: $arguments }, $output)
    };
}

mod check;
mod compare;
mod look;
mod write;

/// Each subcommand in the order of the program, as the input of a macro: its variant, and the module and the name of its row.
macro_rules! each_subcommand {
    ($then:ident $($by:tt)*) => { $then! { $($by)*
        Root look ROOT, Info look INFO, Check check CHECK, Show look SHOW, Types look TYPES, Outline look OUTLINE,
        Refs look REFS, Resources look RESOURCES, Strings look STRINGS, Token look TOKEN, Where look WHERE,
        Rewrite write REWRITE, Embed write EMBED, Digest compare DIGEST, Compare compare COMPARE, Explain check EXPLAIN,
    } };
}

pub(crate) use each_subcommand;

/// A part of the row of a subcommand.
macro_rules! part_of {
    ($by:ident $part:tt $($variant:ident $module:ident $row:ident,)*) => {
        match $by {
            $(Subcommand::$variant => $module::$row.$part,)*
        }
    };
}

/// A subcommand, and what it prints, with examples.
type Row = (Usage<'static>, &'static str);

/// A subcommand: its name, its arguments and its help.
#[derive(Clone, Copy)]
pub(crate) struct Usage<'a> {
    /// The argument that selects it.
    pub(crate) name: &'a str,
    /// What it does, in a line.
    pub(crate) about: &'a str,
    /// Its arguments. Help shows them in this order.
    pub(crate) arguments: &'a [Argument<'a>],
}

/// The arguments of a subcommand, and its help.
pub(crate) fn usage_of<'a>(subcommand: Subcommand) -> Usage<'a>
    ensures { line.shape result ≡ line.shape_of subcommand }
{
    each_subcommand!(part_of subcommand 0)
}

/// What a subcommand prints, with examples.
pub(crate) fn output_of(subcommand: Subcommand) -> &'static str {
    each_subcommand!(part_of subcommand 1)
}

/// `[FILE]..`, the paths of the files to read.
const FILES: Argument<'static> = argument!["FILE" AnyNumber "The files to read"];

/// `FILE`, the path of the file to read.
const FILE: Argument<'static> = argument!["FILE" Required("FILE") "The file to read"];

/// `--bare`, the flag for a metadata root.
const BARE: Argument<'static> = argument!["bare" Flag "FILE is a metadata root, not a PE file"];

/// `--budget`, the limit of what is checked.
const BUDGET: Argument<'static> =
    argument!["budget" Number("N") "Check at most N bytes of texts and signatures"];

/// `--files-from`, the source of a list of files.
const FILES_FROM: Argument<'static> =
    argument!["files-from" Option("LIST") "Read file names from LIST, or '-', one on each line"];

/// `-0`, the flag for a list of files whose names end with NULs.
const NULL: Argument<'static> =
    argument!["null" ShortFlag('0') "Each name ends with NUL; LIST is '-' if not given"];

/// `-r`, the flag for directories.
const RECURSIVE: Argument<'static> =
    argument!["recursive" EitherFlag('r') "Read the PE files in each FILE that is a directory"];

/// `--json`, the flag for JSON Lines.
const JSON: Argument<'static> = argument!["json" Flag "Print a JSON value on each line"];
