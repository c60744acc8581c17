//! `clim root`: the CLI header of a file, and the version and the stream headers of its metadata root.
ghost use Rattle.std.specs.Prelude.{◌≡◌, ◌∷◌, [], IfErr, OnErr, OnOk, Option, map};
ghost use Rattle.cli_header.specs.declared.header.CliHeader.{CliHeader as Header};
ghost use Rattle.cli_files.specs.Heads.{AreHeads, HasHeads, rules_of_heads};
ghost use Rattle.cli_lines.specs.Printed.{Prints};
ghost use Rattle.cli_print.specs.RootLines.{cli_line, header_lines, heads_lines, stream_line, version_line};
ghost use Rattle.packed.specs.Rule.{FirstBroken};
ghost use Rattle.root.specs.Streams.{RootRead};
ghost use Rattle.root.specs.Views.{view};

use cli_files::{Input, heads_of};
use cli_header::CliHeader;
use cli_lines::Part::{Close, Field, Open, Word};
use cli_lines::Value::{Hex, Number, Text};
use cli_lines::{Name, Printer};
use packed::Fault;
use root::{Headers, Root, StreamHeader};
use std::io::Write;

/// Prints the headers: the CLI header unless the bytes are a bare root, and the version and the stream headers of the
/// metadata root.
///
/// # Errors
///
/// The fault of the first rule for headers that fails. Then nothing was printed.
pub fn print_root<W: Write>(
    bytes: &[u8],
    input: Input,
    out: &mut Printer<'_, W>,
) -> Result<(), Fault>
    ensures sound { OnOk result (HasHeads input bytes.now) }
    ensures first_error { IfErr result (FirstBroken (rules_of_heads input bytes.now)) }
    ensures untouched { OnErr result (out.new ≡ out.old) }
    ensures printed { OnOk result ((header : Option Header) (root : RootRead) → AreHeads input bytes.now header root
        → Prints out.old out.new (heads_lines header root)) }
{
    let (header, root) = heads_of(bytes, input)?;
    print_heads(&header, &root, out);
    Ok(())
}

/// Prints the lines of the headers.
fn print_heads<W: Write>(header: &Option<CliHeader>, root: &Root<'_>, out: &mut Printer<'_, W>)
    ensures { Prints out.old out.new (heads_lines header.now root.now) }
{
    cli_lines::laws::lines_follow::<W>();
    print_header(header, out);
    print_version(root.version(), out);
    print_streams(root.headers(), out);
}

/// Prints the line of a CLI header, if there is one.
fn print_header<W: Write>(header: &Option<CliHeader>, out: &mut Printer<'_, W>)
    ensures { Prints out.old out.new (header_lines header.now) }
{
    cli_lines::laws::lines_follow::<W>();
    match header {
        Some(header) => print_cli_header(header, out),
        None => {}
    }
}

/// Prints the line of a CLI header.
#[tactic(auto, unfolding(crate::specs::RootLines::cli_line))]
pub(crate) fn print_cli_header<W: Write>(header: &CliHeader, out: &mut Printer<'_, W>)
    ensures { Prints out.old out.new (cli_line header.now ∷ []) }
{
    out.line(&[
        Open(Name::Cli),
        Word("cli "),
        Field(Name::Major, Number(header.major_runtime_version as u64)),
        Word("."),
        Field(Name::Minor, Number(header.minor_runtime_version as u64)),
        Word(" flags "),
        Field(Name::Flags, Hex(header.flags)),
        Word(" entry "),
        Field(Name::Entry, Hex(header.entry_point_token)),
        Word(" root "),
        Open(Name::Root),
        Field(Name::Offset, Number(header.root.start as u64)),
        Word(" "),
        Field(Name::Size, Number(header.metadata.size as u64)),
        Close,
        Close,
    ]);
}

/// Prints the line of a version.
#[tactic(auto, unfolding(crate::specs::RootLines::version_line))]
pub fn print_version<W: Write>(version: &str, out: &mut Printer<'_, W>)
    ensures { Prints out.old out.new (version_line version.now ∷ []) }
{
    out.line(&[Word("version "), Field(Name::Version, Text(version))]);
}

/// Prints the lines of stream headers.
pub(crate) fn print_streams<W: Write>(headers: Headers<'_>, out: &mut Printer<'_, W>)
    ensures { Prints out.old out.new (map stream_line headers.entry) }
{
    cli_lines::laws::lines_follow::<W>();
    for header in headers {
        print_stream(&header, out);
    }
}

/// Prints the line of a stream header.
#[tactic(auto, unfolding(crate::specs::RootLines::stream_line))]
fn print_stream<W: Write>(header: &StreamHeader<'_>, out: &mut Printer<'_, W>)
    ensures { Prints out.old out.new (stream_line (view header.now) ∷ []) }
{
    out.line(&[
        Open(Name::Stream),
        Word("stream "),
        Field(Name::Offset, Number(header.offset as u64)),
        Word(" "),
        Field(Name::Size, Number(header.size as u64)),
        Word(" "),
        Field(Name::Name, Text(header.name)),
        Close,
    ]);
}
