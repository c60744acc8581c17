//! The words of the flags in a cell (II.23.1).
ghost use Rattle.std.specs.Prelude.{◌≡◌, string_bytes, OnOk, IfOk};
ghost use Rattle.cli_found.specs.Words.{shown_word, Adds};
ghost use Rattle.cli_found.specs.Flags.{flag_parts, flag_text, flags_at, text_parts, with_word};

use cli_lines::Part::Spaced;
use cli_lines::Value::Plain;
use cli_lines::{Name, Printer};
use std::alloc::{AllocError, Global};
use std::io::Write;
use table_schema::TableId;
use type_heads::{FlagTable, FlagWord, words_of};

/// Columns by their table, their number, and the kind of their flags.
macro_rules! flag_columns {
    ($($table:ident $column:literal $of:ident;)*) => {
        [$((TableId::$table, $column, FlagTable::$of)),*]
    };
}

/// The columns of flags (II.22).
const FLAG_COLUMNS: [(TableId, usize, FlagTable); 15] = flag_columns![
    TypeDef 0 Type; Field 0 Field; MethodDef 1 Implementation; MethodDef 2 Method; Param 0 Param;
    Event 0 Mapped; Property 0 Mapped; MethodSemantics 0 Semantics; ImplMap 0 Import;
    Assembly 5 Assembly; AssemblyRef 4 Assembly; File 0 File; ExportedType 0 Type;
    ManifestResource 1 Resource; GenericParam 1 Generic;
];

/// The column of flags with this table and number, if the column has flags (II.22).
pub(crate) fn flags_at(table: TableId, column: usize) -> Option<(TableId, usize, FlagTable)>
    ensures { result ≡ flags_at table column }
{
    FLAG_COLUMNS
        .iter()
        .copied()
        .find(|row| row.0.number() == table.number() && row.1 == column)
}

/// Appends a word, if the flags have its value; after a space if it is not the first one.
fn push_word(number: u64, word: FlagWord, text: &mut String) -> Result<(), AllocError>
    ensures { OnOk result (string_bytes text.new ≡ with_word number (string_bytes text.old) (shown_word word)) }
{
    if number & word.mask as u64 != word.value as u64 {
        return Ok(());
    }
    if !text.is_empty() {
        text.push_str(" ")?;
    }
    text.push_str(word.text)
}

/// The words that flags have, with a space between them.
fn flag_text(alloc: Global, of: FlagTable, number: u64) -> Result<String, AllocError>
    ensures { IfOk result (λ text. string_bytes text ≡ flag_text of number) }
{
    let mut text = String::new(alloc);
    let words = words_of(of);
    for word in words {
        push_word(number, *word, &mut text)?;
    }
    Ok(text)
}

/// Adds a text, unless it is empty.
fn add_text<W: Write>(named: Name, text: &str, out: &mut Printer<'_, W>)
    ensures { Adds out.old out.new (text_parts named text.now) }
{
    cli_lines::laws::parts_follow::<W>();
    if !text.is_empty() {
        out.part(&Spaced(named, Plain(text)));
    }
}

/// Adds the words that flags have, each after a space; in JSON as a member with this name.
pub(crate) fn print_flags<W: Write>(
    alloc: Global,
    named: Name,
    of: FlagTable,
    number: u64,
    out: &mut Printer<'_, W>,
)
    ensures { Adds out.old out.new (flag_parts named of number) }
{
    match flag_text(alloc, of, number) {
        Ok(text) => add_text(named, &text, out),
        Err(_) => out.fail(),
    }
}
