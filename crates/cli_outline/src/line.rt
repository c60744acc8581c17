//! The line of a declaration.
ghost use Rattle.std.specs.Prelude.{◌≡◌, ◌≤◌, ◌∷◌, [], OnOk, string_bytes};
ghost use Rattle.std.specs.List.{before_first, position};
ghost use Rattle.cli_outline.specs.Words.{Metadata, IsModel, row_count, JsonLines, Prints, Tokens as TheTokens};
ghost use Rattle.cli_lines.specs.Shown.{shown};
ghost use Rattle.cli_outline.specs.Declarations.{declaration_line, directive_part, ends_word, has_directive, json_line, text_line, type_part};
ghost use Rattle.cli_outline.specs.Outline.{row_of};
ghost use Rattle.cli_outline.specs.Printed.{IsRowText};
ghost use Rattle.cli_outline.specs.Subjects.{PrintsChosen};

use cli_declarations::{Declared, declare};
use cli_lines::Part::{Member, Note, Word};
use cli_lines::Value::{self, Plain, Text};
use cli_lines::{Form, Name, Part, Printer};
use cli_names::{Choice, Source, Tokens, is_chosen};
use cli_sending::text_as_is;
use full_names::type_of_member;
use opening::{TableId, Token, View, number_or_zero};
use std::alloc::AllocError;
use std::io::Write;

/// The cell of the flags of an accessor (II.22.28).
const SEMANTICS: usize = 0;

/// The flags of accessors that have a word (II.23.1.12).
const KNOWN_SEMANTICS: u32 = 0x3F;

/// The directive of the entry point (II.6.2.3, II.15.4.1.2).
const ENTRY_POINT: &str = " .entrypoint";

/// The length of the first word of a declaration, which a space or a parenthesis ends.
fn end_of_word(text: &[u8]) -> Option<usize>
    ensures { result ≡ position ends_word text.now }
{
    text.iter().position(|byte| *byte == b' ' || *byte == b'(')
}

/// The first word of a declaration.
fn first_word(text: &str) -> &str
    ensures { result.now ≡ before_first ends_word text.now }
{
    let len = end_of_word(text.as_bytes()).unwrap_or(text.len());
    text.split_at(len).0
}

/// Whether a declaration begins with a directive.
#[tactic(auto, unfolding(table_schema::specs::CellColumns::cell_columns))]
fn has_directive(view: &View<'_>, token: Token) -> bool
    requires first { 1 ≤ token.row }
    requires last { token.row ≤ row_count view.now token.table }
    ensures { (model : Metadata) → IsModel view.now model → result ≡ has_directive model token }
{
    match token.table {
        TableId::MethodSemantics => {
            let flags = number_or_zero(view, TableId::MethodSemantics, token.row, SEMANTICS);
            flags & KNOWN_SEMANTICS != 0
        }
        _ => true,
    }
}

/// The member of the type, if there is one.
fn type_part(class: Option<Token>) -> Part<'static>
    ensures { shown result ≡ type_part class }
{
    match class {
        Some(class) => Member(Name::Type, Value::Token(class)),
        None => Word(""),
    }
}

/// The member of the first word of a declaration, if that is a directive.
fn directive_part(has_directive: bool, text: &str) -> Part<'_>
    ensures { shown result ≡ directive_part has_directive text.now }
{
    if has_directive {
        return Member(Name::Directive, Text(first_word(text)));
    }
    Word("")
}

/// Prints the line of a declaration as text.
fn print_text<W: Write>(tokens: Tokens, of: Token, text: &str, out: &mut Printer<'_, W>)
    ensures { Prints out.old out.new (text_line tokens of text.now ∷ []) }
{
    match tokens {
        Tokens::Shown => out.line(&[Note(Plain(text)), Word("  // "), Note(Value::Token(of))]),
        Tokens::Hidden => out.line(&[Note(Plain(text))]),
    }
}

/// Prints the line of a declaration as JSON. Its text is `named`.
fn print_json<'t, W: Write>(
    of: Token,
    class: Option<Token>,
    has_directive: bool,
    text: &'t str,
    named: &'t str,
    out: &mut Printer<'_, W>,
)
    ensures { Prints out.old out.new (json_line of class has_directive text.now named.now ∷ []) }
{
    out.line(&[
        Member(Name::Token, Value::Token(of)),
        type_part(class),
        directive_part(has_directive, text),
        Member(Name::Text, Plain(named)),
    ]);
}

/// Prints the line of a declaration as JSON, with the names as they are in the file.
fn print_named<W: Write>(
    of: Token,
    class: Option<Token>,
    has_directive: bool,
    declared: &Declared,
    out: &mut Printer<'_, W>,
)
    ensures { out.old.style.form ≡ JsonLines → (tokens : TheTokens) → Prints out.old out.new (declaration_line tokens of class has_directive (string_bytes declared.now.text) ∷ []) }
{
    let text = declared.text.trim_ascii_start();
    let mut room = Vec::new(declared.alloc);
    match text_as_is(text, &mut room) {
        Ok(named) => print_json(of, class, has_directive, text, named, out),
        Err(_) => out.fail(),
    }
}

/// Makes a text the declaration of a row, and marks the entry point.
///
/// # Errors
///
/// Out of memory. The text is unspecified then.
fn declare_row(
    source: &Source<'_, '_>,
    token: Token,
    declared: &mut Declared,
) -> Result<(), AllocError>
    requires first { 1 ≤ token.row }
    requires last { token.row ≤ row_count source.now.neighbours.view.now token.table }
    ensures { (model : Metadata) → IsModel source.now.neighbours.view.now model → OnOk result (IsRowText source.now.options model token (string_bytes declared.new.text)) }
{
    declare(&source.neighbours, token, declared)?;
    if source.options.entry == Some(token) {
        declared.text.push_str(ENTRY_POINT)?;
    }
    Ok(())
}

/// Prints the line of a row, if it has one and is chosen. The type of a member is found by binary search.
pub(crate) fn print_row<W: Write>(
    source: &Source<'_, '_>,
    choice: Choice<'_, '_>,
    token: Token,
    declared: &mut Declared,
    out: &mut Printer<'_, W>,
)
    requires first { 1 ≤ token.row }
    requires last { token.row ≤ row_count source.now.neighbours.view.now token.table }
    ensures { (model : Metadata) → IsModel source.now.neighbours.view.now model → PrintsChosen source.now.options model choice.entry out.old out.new (row_of token.table token.row) }
{
    if !is_chosen(source, choice, token) {
        return;
    }
    if !source.shows(token) {
        return;
    }
    let class = type_of_member(&source.neighbours, token);
    match declare_row(source, token, declared) {
        Ok(()) => match out.form() {
            Form::Text | Form::Letters => {
                print_text(source.options.tokens, token, &declared.text, out)
            }
            Form::JsonLines => {
                let has_directive = has_directive(source.neighbours.view, token);
                print_named(token, class, has_directive, declared, out)
            }
        },
        Err(_) => out.fail(),
    }
}
