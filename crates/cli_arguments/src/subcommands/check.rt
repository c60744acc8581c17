//! The subcommands that check files and explain faults.
use crate::subcommands::{BARE, BUDGET, FILES, FILES_FROM, JSON, NULL, RECURSIVE, Row, Usage};

pub(crate) const CHECK: Row = usage!["check"
    "Check files against the rules of the standard" &[
    FILES, BARE, BUDGET, FILES_FROM, NULL, RECURSIVE,
    argument!["quiet" EitherFlag('q') "Print no faults; only the exit status reports them"], JSON,
    argument!["where" Flag "Print what contains the byte at a fault; explain it"]], "\
Prints 'ok' if FILE breaks no rule. Otherwise prints only the first fault, to
standard error. The rules are those that 'clim explain' lists from 101 to 801,
except 508 to 510. OFFSET is an offset in FILE. LAYER is one of these, with the
sections whose rules it checks:
  1  the headers of the PE file (II.25.2, II.25.3)
  2  the CLI header (II.25.3.3)
  3  the metadata root and its stream headers (II.24.2.1, II.24.2.2)
  4  the table stream (II.24.2.6)
  5  a cell, and the heaps (II.22, II.24.2.3 to II.24.2.6)
  6  the order of rows, members and nested types (II.22)
  7  a signature (II.23.2)
  8  the entry point (II.25.3.3)
'clim explain CODE' explains a fault. 'clim explain' lists all faults. '--where'
also prints the row of a fault.

Texts and signature blobs may overlap, so the check of a FILE of a few kilobytes
can take a long time. '--budget N' limits the number of their bytes to check. A
check that needs more ends with 'error: budget spent' and exit status 3.

For several FILEs, a list of them or a directory, it prints one line for each,
in the order given:
'FILE: ok' or 'FILE: fault LAYER CODE at OFFSET: NAME'. Each has its own budget.
If a FILE cannot be read or checked, it prints the reason to standard error and
goes on with the next. The exit status is the greatest.

'-r' reads each file in a FILE that is a directory, and in the directories in
it, in the order of the bytes of their names. It follows no link there. It
passes over files that do not begin like a PE file ('MZ'; with '--bare' 'BSJB'),
and writes their number to standard error at the end.

'--files-from LIST' reads the names of the files from the file LIST, or from
standard input if it is '-', one on each line. With '-0' each name ends with a
NUL instead, and LIST need not be given, as in
'find . -name '*.dll' -print0 | clim check -0'.

'--quiet' prints neither these lines nor the faults. The exit status is the
same. Errors of reading and checking are still printed to standard error.

'--json' prints one JSON object (RFC 8259) on a line: '{\"ok\":true}' or the
fault, such as '{\"layer\":1,\"code\":102,\"offset\":0,\"name\":\"DosHeader\"}'. Nothing
is written to standard error, unless FILE cannot be read or checked. The exit
status is the same. For several FILEs each object also has the member 'file'.

'--where' prints to standard output: the line of the fault, then a line as by
'clim where' for each structure that contains the byte at OFFSET, a line with
OFFSET in hexadecimal, and with the number there and what the rule compares it
with if it is about one, an empty line, and the text of 'clim explain'. Only the
parts that are valid are described, up to the first fault: the headers of the PE
file, the CLI header, the metadata root and the table stream. So a fault of
layers 5 to 7 has the line of a cell, and one of layer 1 has no line of a
structure. The exit status is the same.

Examples:
  $ clim check one_module.dll
  ok
  $ clim check --json one_module.dll
  {\"ok\":true}
  $ clim check --bare one_module.root
  ok
  $ clim check one_module.dll one_module.dll
  one_module.dll: ok
  one_module.dll: ok"];

pub(crate) const EXPLAIN: Row = usage!["explain"
    "Explain faults, or list all" &[
    argument!["CODE" AnyNumber "The number or the name of a fault; without it, list all faults"], JSON], "\
The first line has the number of the fault, its name and what is wrong. Then
come the rule, the section of ECMA-335, what OFFSET points to, and the usual
cause if it is known. An empty line separates two faults. Without CODE it prints
one line for each fault.

'--json' prints a JSON object (RFC 8259) on a line for each fault: its 'code',
'name' and 'summary', and the 'rule', the 'offset' and, if they are known, the
'section' and the 'cause'.

Examples:
  $ clim explain BadUtf8
  502 BadUtf8: a text that is not UTF-8

  - Rule: The bytes from an index into '#Strings' to the next NUL are UTF-8.
  - Section: II.24.2.3
  - Offset: The cell with the index.
  - Usual cause: An obfuscator that uses names which are not text."];
