//! The subcommands that compare files, and their digests.
use crate::subcommands::{
    BARE, BUDGET, FILE, FILES, FILES_FROM, JSON, NULL, RECURSIVE, Row, Usage,
};

pub(crate) const COMPARE: Row = usage!["compare"
    "Compare the metadata of two files" &[
    FILE, BARE, BUDGET, argument!["quiet" EitherFlag('q') "Print nothing; the exit status is the answer"], JSON,
    argument!["second" Required("OTHER") "The file to compare it with"],
    argument!["ignore" Repeated("TABLE.COLUMN") "Do not compare the cells of this column"]], "\
Prints 'equal' if both files have the same metadata. 'clim rewrite' then writes
the same bytes for both. Otherwise the exit status is 1, and the lines say what
differs, each as 'WHAT: A | B' with A of FILE and B of OTHER. The first line is
the first of these that differs, if one does:
  version       the version string
  user strings  the number of bytes of '#US', padded to a multiple of four
  rows NN NAME  the number of rows of a table
Then come the first 20 cells that differ, in the rows that both files have:
'TOKEN COLUMN: A | B', with the name of the column (ECMA-335, II.22). The values
are printed as by 'clim show'.

'--ignore TABLE.COLUMN' does not compare the cells of this column, one of those
that 'clim show --help' lists. The option may be given several times. 'equal'
then means: the same except for these columns. '--ignore Module.Mvid' compares
two builds of the same source, whose module versions differ.

'--json' prints a JSON object (RFC 8259) on each line: '{\"equal\":true}', or a
'difference', which is Version, UserStrings, RowCount with its 'table', or Cell
with its 'token' and 'column'. 'left' is the value of FILE, and 'right' that of
OTHER, as 'clim show --json' prints cells. UserStrings have no values. A fault
is printed to standard error as without the option.

'--quiet' prints nothing. A fault is still written to standard error.

FILE and OTHER are checked first, as by 'clim check'. If one is refused, its
name follows the fault. '--bare' is for both.

Examples:
  $ clim compare --bare one_module.root one_module.root
  equal
  $ clim compare --bare --ignore Module.Mvid one_module.root one_module.root
  equal
  $ clim compare --json --bare one_module.root one_module.root
  {\"equal\":true}"];

pub(crate) const DIGEST: Row = usage!["digest"
    "Print the SHA-256 digest of the canonical root of each file" reports![FILES], "\
Prints the 64 hexadecimal digits of the digest, two spaces and FILE, like
sha256sum. The digest is that of the bytes that 'clim rewrite' writes:
'sha256sum OUT' prints the same digits. Files with the same rows in the same
order have the same digest. Method bodies and resources do not count. In FILE, a
quote, a backslash and a byte that is not printable ASCII become \\x and two
hexadecimal digits. FILE is checked first, as by 'clim check'.

Several FILEs have a line each, in the order given. A FILE without a digest (it
breaks a rule, or cannot be read) is reported to standard error with its name,
and the next one follows. The exit status is the greatest. 'clim digest -r .'
prints the digests of all assemblies of a folder. 'clim check --help' says what
'-r', '-0' and '--files-from' read.

'--json' prints a JSON object (RFC 8259) on each line, with the 'digest' and the
'file'.

Examples:
  $ clim digest --bare out.root
  40bf7100a055088dec71a67475f684ac5c72c04f6e4d9fb17cd8f99e053ead9e  out.root"];
