//! `clim check`: whether a file breaks a rule.
ghost use Rattle.std.specs.Prelude.{◌∷◌, []};
ghost use Rattle.std.specs.Option.{option_map};
ghost use Rattle.cli_lines.specs.Printed.{Adds, Begins, Prints};
ghost use Rattle.cli_print.specs.Verdicts.{file_parts, outcome_parts, verdict_line};

use cli_faults::OK;
use cli_lines::Part::{Field, Member, Word};
use cli_lines::Value::{Number, Plain, Text, Yes};
use cli_lines::{Name, Printer};
use packed::Fault;
use std::io::Write;

/// Prints the line of a file that was checked: `ok`, or the first rule that it breaks; after its name if it is one of several.
pub fn print_verdict<W: Write>(file: Option<&str>, fault: Option<Fault>, out: &mut Printer<'_, W>)
    ensures { Prints out.old out.new (verdict_line (option_map (λ file. file.now) file.entry) fault ∷ []) }
{
    cli_lines::laws::parts_follow::<W>();
    begin_with(file, out);
    add_outcome(fault, out);
    out.end();
}

/// Begins a line with the name of a file, if there is one.
fn begin_with<W: Write>(file: Option<&str>, out: &mut Printer<'_, W>)
    ensures { Begins out.old out.new (file_parts (option_map (λ file. file.now) file.entry)) }
{
    match file {
        Some(file) => out.begin(&[Field(Name::File, Text(file)), Word(": ")]),
        None => out.begin(&[]),
    }
}

/// Adds that no rule is broken, or the first broken one: its layer, the number of its rule, its offset and the name of the rule.
fn add_outcome<W: Write>(fault: Option<Fault>, out: &mut Printer<'_, W>)
    ensures { Adds out.old out.new (outcome_parts fault) }
{
    match fault {
        Some(fault) => out.parts(&[
            Word("fault "),
            Field(Name::Layer, Number(fault.layer as u64)),
            Word(" "),
            Field(Name::Code, Number(fault.code as u64)),
            Word(" at "),
            Field(Name::Offset, Number(fault.offset)),
            Word(": "),
            Field(Name::Name, Plain(fault.name())),
        ]),
        None => out.parts(&[Word(OK), Member(Name::Ok, Yes)]),
    }
}
