//! `clim explain`: what rules say.
ghost use Rattle.std.specs.Prelude.{◌≡◌, ◌∷◌, [], List};
ghost use Rattle.cli_lines.specs.Lines.{Part as ThePart};
ghost use Rattle.cli_lines.specs.Printed.{Adds, Printed, Prints};
ghost use Rattle.cli_print.specs.Explanations.{AreExplanations, BeginsWords, IsAnother, IsExplanation, IsRule, PrintsEach, PrintsWords, known_parts, rule_line, space_before};

use cli_faults::{Explanation, all_codes, explain};
use cli_lines::Part::{Field, Member, Word};
use cli_lines::Value::{Number, Plain};
use cli_lines::{Name, Printer};
use packed::{Fault, FaultCode};
use std::io::Write;

/// The largest number of columns in a line.
const WIDTH: usize = 100;

/// What a line of an item begins with, but the first.
const INDENT: &str = "  ";

/// Prints the explanations of rules, with an empty line between two of them. Without any rule, it prints a line for each rule
/// that there is, lowest number first.
pub fn print_explanations<W: Write>(rules: &[FaultCode], out: &mut Printer<'_, W>)
    ensures { (lines : List (List ThePart)) × AreExplanations rules.now lines × Prints out.old out.new lines }
{
    cli_lines::laws::lines_follow::<W>();
    match rules.split_first() {
        None => print_rules(all_codes(), out),
        Some((first, later)) => {
            print_explanation(*first, out);
            print_more(later, out);
        }
    }
}

/// Prints the line of each rule.
fn print_rules<W: Write>(rules: &[FaultCode], out: &mut Printer<'_, W>)
    ensures { PrintsEach IsRule rules.now out.old out.new }
{
    cli_lines::laws::lines_follow::<W>();
    for rule in rules {
        print_rule(explain(*rule), out);
    }
}

/// Prints the explanations of rules, each after an empty line.
fn print_more<W: Write>(rules: &[FaultCode], out: &mut Printer<'_, W>)
    ensures { PrintsEach IsAnother rules.now out.old out.new }
{
    cli_lines::laws::lines_follow::<W>();
    for rule in rules {
        out.line(&[]);
        print_explanation(*rule, out);
    }
}

/// Prints the explanation of a rule: its line, an empty line, and then items that begin with a dash. They are the rule, the
/// section of ECMA-335, where the offset points and the usual cause. Lines have at most 100 columns, unless one word is longer.
/// In JSON it is one object.
pub fn print_explanation<W: Write>(rule: FaultCode, out: &mut Printer<'_, W>)
    ensures { (lines : List (List ThePart)) × IsExplanation rule lines × Prints out.old out.new lines }
{
    cli_lines::laws::lines_follow::<W>();
    let it = explain(rule);
    print_rule(it, out);
    out.line(&[]);
    print_item("Rule:", Some(it.rule), out);
    print_item("Section:", it.section, out);
    print_item("Offset:", Some(it.offset), out);
    print_item("Usual cause:", it.cause, out);
}

/// Prints the line of a rule.
fn print_rule<W: Write>(it: &Explanation, out: &mut Printer<'_, W>)
    ensures { Prints out.old out.new (rule_line it.now ∷ []) }
{
    cli_lines::laws::parts_follow::<W>();
    let number = it.code.number() as u64;
    let name = Fault::new(it.code, 0).name();
    out.begin(&[
        Field(Name::Code, Number(number)),
        Word(space_before(name)),
        Field(Name::Name, Plain(name)),
        Word(": "),
        Field(Name::Summary, Plain(it.summary)),
        Member(Name::Rule, Plain(it.rule)),
        Member(Name::Offset, Plain(it.offset)),
    ]);
    add_known(Name::Section, it.section, out);
    add_known(Name::Cause, it.cause, out);
    out.end();
}

/// A space before a name.
fn space_before(name: &str) -> &'static str
    ensures { result.now ≡ space_before name.now }
{
    if name.is_empty() { "" } else { " " }
}

/// Adds a text to the JSON object, if it is known.
fn add_known<W: Write>(name: Name, text: Option<&'static str>, out: &mut Printer<'_, W>)
    ensures { Adds out.old out.new (known_parts name text.entry) }
{
    cli_lines::laws::parts_follow::<W>();
    match text {
        Some(text) => out.part(&Member(name, Plain(text))),
        None => {}
    }
}

/// Prints a dash, a label and a text, in lines of at most [`WIDTH`] columns. It prints nothing if the text is not known.
fn print_item<W: Write>(label: &str, text: Option<&str>, out: &mut Printer<'_, W>)
    ensures { PrintsWords out.old out.new }
{
    cli_lines::laws::parts_follow::<W>();
    cli_lines::laws::lines_follow::<W>();
    let Some(text) = text else {
        return;
    };
    out.begin(&[Word("- "), Word(label)]);
    let mut room = (WIDTH - INDENT.len()).saturating_sub(label.len());
    for word in text.split_whitespace() {
        room = add_word(word, room, out);
    }
    out.end();
}

/// Adds a word after a space, or on a line of its own if it does not fit in the room that is left. Returns the room after it.
fn add_word<W: Write>(word: &str, room: usize, out: &mut Printer<'_, W>) -> usize
    ensures { (before : Printed W) → BeginsWords before out.old → BeginsWords before out.new }
{
    cli_lines::laws::parts_follow::<W>();
    cli_lines::laws::lines_follow::<W>();
    if word.len() < room {
        out.parts(&[Word(" "), Word(word)]);
        return room - word.len() - 1;
    }
    out.end();
    out.begin(&[Word(INDENT), Word(word)]);
    (WIDTH - INDENT.len()).saturating_sub(word.len())
}
