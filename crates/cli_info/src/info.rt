//! `clim info`: what one wants to know first of an assembly.
ghost use Rattle.std.specs.Prelude.{◌≡◌, ◌≤◌, ◌<◌, ◌==◌, if◌then◌else◌, ◌∷◌, [], IfErr, IfOk, OnErr, OnOk, Option, Some};
ghost use Rattle.cli_header.specs.declared.header.CliHeader.{CliHeader as Header};
ghost use Rattle.cli_info.specs.InfoLines.{AreFacts, HasRoom, counts_line, debug_size, entry_line, entry_name, flag_word, flags_line, format_name, header_lines, image_line, info_lines, machine, machine_word, method_name, module_lines};
ghost use Rattle.cli_files.specs.Checked.{IsWhole, rules_of};
ghost use Rattle.cli_lines.specs.Printed.{Prints};
ghost use Rattle.metadata.specs.Metadata.{Metadata};
ghost use Rattle.metadata.specs.Model.{IsModel};
ghost use Rattle.packed.specs.Rule.{FirstBroken};
ghost use Rattle.pe.specs.Headers.{magic};

use crate::attributes::print_attributes;
use crate::identities::{Kind, print_identities};
use cli_files::Input;
use cli_header::CliHeader;
use cli_lines::Part::{Field, Word};
use cli_lines::Value::{Guid, Hex, Number, Plain, Text};
use cli_lines::{Name, Printer};
use cli_print::print_version;
use opening::{TableId, View, guid_or_null, open_image, open_root, text_or_empty};
use packed::{Fault, u16_at, u32_at};
use std::alloc::Global;
use std::io::Write;

/// The indexes of the cells with the name and the Mvid of a module (II.22.30).
const MODULE_NAME: usize = 1;

const MVID: usize = 2;

/// Prints what one wants to know first: the identity of the assembly; its module; the version of the runtime; the headers,
/// unless the bytes are a bare root; the numbers of types, methods, fields and resources; the identity of each assembly that it
/// refers to; and each attribute of the assembly whose arguments are strings. Of more than 256 attributes the first ones are
/// read, and the number of the others is printed.
///
/// Its time is that of the lines, and of the SHA-1 of each key, of which at most 2,080 bytes are read for a row; a key that is
/// that of the row before is not hashed again. Of the value of an attribute at most 1,024 bytes are read.
///
/// # Errors
///
/// The fault of the first rule that fails. Then nothing was printed.
pub fn print_info<W: Write>(
    alloc: Global,
    bytes: &[u8],
    input: Input,
    out: &mut Printer<'_, W>,
) -> Result<(), Fault>
    ensures first_error { IfErr result (FirstBroken (rules_of input bytes.now)) }
    ensures untouched { OnErr result (out.new ≡ out.old) }
    ensures whole { OnOk result (IsWhole input bytes.now) }
    ensures printed { OnOk result ((header : Option Header) (model : Metadata) → AreFacts input bytes.now header model
        → Prints out.old out.new (info_lines bytes.now header model)) }
{
    cli_lines::laws::lines_follow::<W>();
    let (header, view) = open_facts(bytes, input)?;
    print_identities(alloc, &view, Kind::Assembly, out);
    print_module(&view, out);
    print_version(view.version(), out);
    print_headers(bytes, &header, &view, out);
    print_counts(&view, out);
    print_identities(alloc, &view, Kind::Reference, out);
    print_attributes(alloc, &view, out);
    Ok(())
}

/// Opens the metadata of the bytes, and returns their CLI header, if there is one.
///
/// # Errors
///
/// The fault of the first rule that fails.
pub fn open_facts(bytes: &[u8], input: Input) -> Result<(Option<CliHeader>, View<'_>), Fault>
    ensures first_error { IfErr result (FirstBroken (rules_of input bytes.now)) }
    ensures whole { IfOk result (λ _. IsWhole input bytes.now) }
    ensures facts { IfOk result (λ opened. (header : Option Header) (model : Metadata) → AreFacts input bytes.now header model
        → (opened.0 ≡ header) × IsModel opened.1 model) }
    ensures room { IfOk result (λ opened. (header : Header) → opened.0 ≡ Some header → HasRoom bytes.now) }
{
    pe::laws::images_are_read();
    match input {
        Input::BareRoot => Ok((None, open_root(bytes)?)),
        Input::File => {
            let (header, view) = open_image(bytes)?;
            Ok((Some(header), view))
        }
    }
}

/// Prints the name and the Mvid of the module, if there is one.
#[tactic(auto, unfolding(crate::specs::InfoLines::module_line, table_schema::specs::CellColumns::cell_columns))]
fn print_module<W: Write>(view: &View<'_>, out: &mut Printer<'_, W>)
    ensures { (model : Metadata) → IsModel view.now model → Prints out.old out.new (module_lines model) }
{
    cli_lines::laws::lines_follow::<W>();
    if view.count(TableId::Module) > 0 {
        let name = text_or_empty(view, TableId::Module, 1, MODULE_NAME);
        let mvid = guid_or_null(view, TableId::Module, 1, MVID);
        out.line(&[
            Word("module "),
            Field(Name::Module, Text(name)),
            Word(" "),
            Field(Name::Mvid, Guid(mvid)),
        ]);
    }
}

/// Prints the numbers of types, methods, fields and resources.
#[tactic(auto, unfolding(crate::specs::InfoLines::counts_line))]
fn print_counts<W: Write>(view: &View<'_>, out: &mut Printer<'_, W>)
    ensures { (model : Metadata) → IsModel view.now model → Prints out.old out.new (counts_line model ∷ []) }
{
    let resources = view.count(TableId::ManifestResource) as u64;
    out.line(&[
        Word("types "),
        Field(Name::Types, Number(view.count(TableId::TypeDef) as u64)),
        Word(" methods "),
        Field(Name::Methods, Number(view.count(TableId::MethodDef) as u64)),
        Word(" fields "),
        Field(Name::Fields, Number(view.count(TableId::Field) as u64)),
        Word(" resources "),
        Field(Name::Resources, Number(resources)),
    ]);
}

/// The offset of lfanew, which is that of the PE signature (II.25.2.1). The next three offsets are relative to this signature.
const LFANEW: usize = 0x3C;
/// The offset of Machine (II.25.2.2).
const MACHINE: usize = 4;
/// The offset of Magic (II.25.2.3.1).
const MAGIC: usize = 24;
/// The offset of the size of debug data in PE32 (II.25.2.3.3).
const DEBUG_SIZE: usize = 172;

/// Magic of PE32+, and the number of bytes that it has more than PE32 before the data directories.
const PE32_PLUS: u16 = 0x20B;

const WIDER: usize = 16;

/// The flag of a native entry point, which is no token (II.25.3.3.1).
const NATIVE_ENTRYPOINT: u32 = 0x10;

/// The number of values of a row in a token (II.22).
const ROWS: u32 = 1 << 24;

/// The number of MethodDef in a token, and the index of the cell with the name of a method (II.22.26).
const METHOD_DEF: u32 = 0x06;

const METHOD_NAME: usize = 3;

/// The name of a format, and the number of bytes that it has more than PE32 before the data directories.
fn format_of(magic: u16) -> (&'static str, usize)
    ensures name { result.0.now ≡ format_name magic }
    ensures wider { result.1 ≡ (if magic == 0x20B then 16 else 0) }
    ensures few { result.1 ≤ 16 }
{
    if magic == PE32_PLUS {
        ("PE32+", WIDER)
    } else {
        ("PE32", 0)
    }
}

/// The name of a machine after a space, if it is one of .NET.
fn machine_word(machine: u16) -> &'static str
    ensures { result.now ≡ machine_word machine }
{
    match machine {
        0x14C => " i386",
        0x8664 => " amd64",
        0x1C4 => " arm",
        0xAA64 => " arm64",
        _ => "",
    }
}

/// Prints the line of the PE headers of a file.
#[tactic(auto, unfolding(crate::specs::InfoLines::image_line))]
fn print_image<W: Write>(file: &[u8], out: &mut Printer<'_, W>)
    requires { HasRoom file.now }
    ensures { Prints out.old out.new (image_line (magic file.now) (machine file.now) (debug_size file.now) ∷ []) }
{
    let start = u32_at(file, LFANEW) as usize;
    let machine = u16_at(file, start + MACHINE);
    let (format, wider) = format_of(u16_at(file, start + MAGIC));
    let debug = u32_at(file, start + DEBUG_SIZE + wider);
    out.line(&[
        Word("format "),
        Field(Name::Format, Plain(format)),
        Word(" machine "),
        Field(Name::Machine, Hex(machine as u32)),
        Word(machine_word(machine)),
        Word(" debug "),
        Field(Name::Debug, Number(debug as u64)),
    ]);
}

/// A word, if the flag is set.
fn flag_word(flags: u32, flag: u32, word: &'static str) -> &'static str
    requires { 0 < flag }
    ensures { result.now ≡ flag_word flags flag word.now }
{
    if flags / flag % 2 == 1 { word } else { "" }
}

/// Prints the line of the flags (II.25.3.3.1).
#[tactic(auto, unfolding(crate::specs::InfoLines::flags_line))]
fn print_flags<W: Write>(flags: u32, out: &mut Printer<'_, W>)
    ensures { Prints out.old out.new (flags_line flags ∷ []) }
{
    out.line(&[
        Word("flags "),
        Field(Name::Flags, Hex(flags)),
        Word(flag_word(flags, 0x1, " ILONLY")),
        Word(flag_word(flags, 0x2, " 32BITREQUIRED")),
        Word(flag_word(flags, 0x8, " STRONGNAMESIGNED")),
        Word(flag_word(flags, NATIVE_ENTRYPOINT, " NATIVE_ENTRYPOINT")),
        Word(flag_word(flags, 0x10000, " TRACKDEBUGDATA")),
        Word(flag_word(flags, 0x20000, " 32BITPREFERRED")),
    ]);
}

/// The name of a method, and nothing if there is no such row.
#[tactic(auto, unfolding(crate::specs::InfoLines::method_name, table_schema::specs::CellColumns::cell_columns))]
fn method_name<'a>(row: u32, view: &View<'a>) -> &'a str
    ensures { (model : Metadata) → IsModel view.now model → result.now ≡ method_name row model }
{
    if row == 0 || row > view.count(TableId::MethodDef) {
        return "";
    }
    text_or_empty(view, TableId::MethodDef, row, METHOD_NAME)
}

/// The name of the method that is the entry point, if it is one.
fn entry_name<'a>(header: &CliHeader, view: &View<'a>) -> &'a str
    ensures { (model : Metadata) → IsModel view.now model → result.now ≡ entry_name header.now model }
{
    let is_native = header.flags / NATIVE_ENTRYPOINT % 2 == 1;
    if is_native || header.entry_point_token / ROWS != METHOD_DEF {
        return "";
    }
    method_name(header.entry_point_token % ROWS, view)
}

/// Prints the line of an entry point.
#[tactic(auto, unfolding(crate::specs::InfoLines::entry_line))]
fn print_entry<W: Write>(token: u32, name: &str, out: &mut Printer<'_, W>)
    ensures { Prints out.old out.new (entry_line token name.now ∷ []) }
{
    if name.is_empty() {
        out.line(&[Word("entry "), Field(Name::Entry, Hex(token))]);
    } else {
        out.line(&[
            Word("entry "),
            Field(Name::Entry, Hex(token)),
            Word(" "),
            Field(Name::Name, Text(name)),
        ]);
    }
}

/// Prints the lines of a file with a CLI header, and none of a bare root.
fn print_headers<W: Write>(
    file: &[u8],
    header: &Option<CliHeader>,
    view: &View<'_>,
    out: &mut Printer<'_, W>,
)
    requires { (of : Header) → header.now ≡ Some of → HasRoom file.now }
    ensures { (model : Metadata) → IsModel view.now model → Prints out.old out.new (header_lines file.now header.now model) }
{
    cli_lines::laws::lines_follow::<W>();
    let Some(header) = header else {
        return;
    };
    print_image(file, out);
    print_flags(header.flags, out);
    print_entry(header.entry_point_token, entry_name(header, view), out);
    let signature = header.strong_name_signature.size as u64;
    let native = header.managed_native_header.size as u64;
    out.line(&[
        Word("signature "),
        Field(Name::Signature, Number(signature)),
        Word(" native "),
        Field(Name::Native, Number(native)),
    ]);
}
