//! The subcommands that write a file.
use crate::subcommands::{BARE, BUDGET, FILE, JSON, Row, Usage};

pub(crate) const REWRITE: Row = usage!["rewrite"
    "Write the canonical metadata root of a file" &[
    FILE, BARE, BUDGET, argument!["second" Required("OUT") "The file to write"]], "\
OUT becomes a metadata root without a PE file, which '--bare' reads. The
canonical root is the one encoding of FILE's metadata with the heaps in order of
first use, each text, blob and GUID once, and the narrowest indexes (ECMA-335,
II.24.2). It contains no method bodies and resources.

FILE is read and checked first, as by 'clim check'. OUT is created or truncated
when the root is ready. If FILE is refused or the root is too long (fault 901),
OUT is not changed. If writing fails, OUT contains a part of the root.

OUT may be FILE. Then the root is written to a new file beside it, with
'.clim-new' added to its name. The new file replaces FILE when it is complete,
so FILE survives a full disk. OUT must not be '-' or the standard output, which
takes the line 'wrote N bytes'.

Examples:
  $ clim rewrite one_module.dll out.root
  wrote 144 bytes
  $ clim check --bare out.root
  ok"];

pub(crate) const EMBED: Row = usage!["embed"
    "Write a copy of a file with its canonical root, or with another" &[
    FILE, JSON, argument!["second" Required("OUT") "The file to write"],
    argument!["root" Option("ROOT") "A metadata root to take instead of the canonical one"],
    argument!["unsigned" Flag "Clear the strong name: its flag and its directory"]], "\
OUT becomes a PE file like FILE whose metadata is FILE's canonical root, as
'clim rewrite' writes it, or the root in the file ROOT. All else stays
unchanged, except for the headers that have to follow (ECMA-335, II.25).

The root goes where the old one is, if it is not longer. Otherwise it goes into
a new section, or into the last section, which becomes longer. Code and data
stay at their addresses. So ROOT must have the methods and the field data of
FILE, with the same addresses, and its user strings.

FILE and ROOT are read and checked first, as by 'clim check'. If one is refused,
or the root does not fit, OUT is not changed, and the exit status is 1. 'error:
cannot embed the root' says why a root does not fit. OUT may be FILE or ROOT,
which is then replaced when OUT is complete, as by 'clim rewrite'. OUT must not
be '-' or the standard output, which takes the line 'wrote N bytes'.

A strong name and a certificate no longer fit the bytes of OUT. A warning on
standard error reports this if FILE has one. The directory of the certificate is
cleared. '--unsigned' also clears the strong name.

'--json' prints a JSON object (RFC 8259): 'length' is the number of bytes of
OUT, and 'offset' and 'size' say where the root is in OUT.

Examples:
  $ clim embed one_module.dll out.dll
  wrote 1024 bytes
  $ clim embed --unsigned --root out.root one_module.dll out.dll
  wrote 1024 bytes"];
