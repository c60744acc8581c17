//! `clim root --until-fault`: the headers of a file that breaks a rule, as far as they can be read.
ghost use Rattle.std.specs.Prelude.{◌≡◌, IfErr, List, OnErr, OnOk, Option};
ghost use Rattle.cli_header.specs.declared.header.CliHeader.{CliHeader as Header};
ghost use Rattle.cli_files.specs.Heads.{AreHeads, HasHeads, rules_of_heads};
ghost use Rattle.cli_lines.specs.Lines.{Part};
ghost use Rattle.cli_lines.specs.Printed.{Prints};
ghost use Rattle.cli_print.specs.ReadableLines.{AreOfImage, AreOfRoot, AreReadable};
ghost use Rattle.cli_print.specs.RootLines.{heads_lines};
ghost use Rattle.packed.specs.Rule.{FirstBroken};
ghost use Rattle.root.specs.Streams.{RootRead};

use crate::root_lines::{print_cli_header, print_root, print_streams, print_version};
use cli_files::{Input, root_of};
use cli_header::read_cli;
use cli_lines::Printer;
use packed::Fault;
use pe::{Pe, read_pe};
use root::read_until_fault;
use std::io::Write;

/// Prints the headers as [`print_root`] does. Of bytes that break a rule for headers it prints the lines before the fault: that
/// of the CLI header if its rules and those for the image hold, then the version, and the stream headers before the first
/// that cannot be read.
///
/// # Errors
///
/// The fault of the first rule for headers that fails.
pub fn print_root_until_fault<W: Write>(
    bytes: &[u8],
    input: Input,
    out: &mut Printer<'_, W>,
) -> Result<(), Fault>
    ensures sound { OnOk result (HasHeads input bytes.now) }
    ensures first_error { IfErr result (FirstBroken (rules_of_heads input bytes.now)) }
    ensures printed { OnOk result ((header : Option Header) (root : RootRead) → AreHeads input bytes.now header root
        → Prints out.old out.new (heads_lines header root)) }
    ensures readable { OnErr result ((lines : List (List Part)) × AreReadable input bytes.now lines × Prints out.old out.new lines) }
{
    match print_root(bytes, input, out) {
        Ok(()) => Ok(()),
        Err(fault) => {
            print_readable(bytes, input, out);
            Err(fault)
        }
    }
}

/// Prints the lines of headers that may break a rule.
fn print_readable<W: Write>(bytes: &[u8], input: Input, out: &mut Printer<'_, W>)
    ensures { (lines : List (List Part)) × AreReadable input bytes.now lines × Prints out.old out.new lines }
{
    cli_lines::laws::lines_follow::<W>();
    match input {
        Input::BareRoot => print_readable_root(bytes, out),
        Input::File => match read_pe(bytes) {
            Ok(pe) => print_readable_image(&pe, out),
            Err(_) => {}
        },
    }
}

/// Prints the lines of the CLI header of an image, unless it breaks a rule, and of its metadata root.
fn print_readable_image<W: Write>(pe: &Pe<'_>, out: &mut Printer<'_, W>)
    ensures { (lines : List (List Part)) × AreOfImage pe.now lines × Prints out.old out.new lines }
{
    cli_lines::laws::lines_follow::<W>();
    match read_cli(pe) {
        Ok(header) => {
            print_cli_header(&header, out);
            print_readable_root(root_of(pe.bytes(), &header), out);
        }
        Err(_) => {}
    }
}

/// Prints the lines of a metadata root, unless the fields before its stream headers break a rule.
fn print_readable_root<W: Write>(root: &[u8], out: &mut Printer<'_, W>)
    ensures { (lines : List (List Part)) × AreOfRoot root.now lines × Prints out.old out.new lines }
{
    cli_lines::laws::lines_follow::<W>();
    match read_until_fault(root) {
        Some((version, headers)) => {
            print_version(version, out);
            print_streams(headers, out);
        }
        None => {}
    }
}
