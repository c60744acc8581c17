//! The text of a declaration.
ghost use Rattle.std.specs.Prelude.{◌≡◌, ◌++◌, take, string_bytes, IsOk, OnOk};
ghost use Rattle.cli_declarations.specs.Words.{Dotted, name_text, quoted_bytes};
ghost use Rattle.cli_declarations.specs.Parts.{cut_mark, cut_text, is_open};
ghost use Rattle.cli_declarations.specs.Texts.{Begins, Ends};

use full_names::{Limit, NameKind, Scopes, write_name, write_quoted};
use std::alloc::{AllocError, Global};
use std::fmt::{self, Write};

/// The number of bytes of a name, a signature or another text of the file that are printed.
const LIMIT: usize = 1 << 16;

/// What appending to a declaration returns.
pub(crate) type Pushed = Result<(), AllocError>;

/// The text of a declaration, as a writer of ASCII texts. Of a text that [`begin_text`] begins it takes the first bytes, and
/// passes over the others. It refuses a text only if out of memory.
#[derive(Drop)]
pub struct Declared {
    /// For its memory.
    pub alloc: Global,
    /// The text so far.
    pub text: String,
    /// One more than the number of bytes of the text that it still takes; 0 after a byte that it passed over.
    pub left: usize,
    /// Where the text that it takes begins.
    pub begun: usize,
}

impl Declared {
    ghost use Rattle.std.specs.Prelude.{◌≡◌, [], string_bytes};

    /// An empty text.
    pub fn new(alloc: Global) -> Declared {
        Declared {
            alloc,
            text: String::new(alloc),
            left: 0,
            begun: 0,
        }
    }

    /// Makes the text empty.
    pub(crate) fn clear(&mut self)
        ensures { string_bytes self.new.text ≡ [] }
    {
        self.text.clear();
    }
}

impl fmt::Write for Declared {
    ghost use Rattle.std.specs.Prelude.{◌≡◌, ◌-◌, ◌++◌, length, take, string_bytes};

    ghost write_str_gives = { λ before text after. (string_bytes after.text ≡ string_bytes before.text ++ take (before.left - 1) text)
        × (after.left ≡ before.left - length text) × (after.begun ≡ before.begun) };

    /// Appends the bytes of a text that are still taken.
    ///
    /// # Errors
    ///
    /// Out of memory.
    fn write_str(&mut self, text: &str) -> fmt::Result {
        let room = self.left.saturating_sub(1);
        self.left = self.left.saturating_sub(text.len());
        push_first(text, room, &mut self.text).map_err(|_| fmt::Error)
    }
}

/// Appends the first bytes of a text. A part of a character is refused; names and signatures are ASCII.
#[tactic(auto, using(std::proofs::lemmas::List::take_min))]
fn push_first(text: &str, room: usize, out: &mut String) -> Pushed
    ensures { OnOk result (string_bytes out.new ≡ string_bytes out.old ++ take room text.now) }
{
    match text.split_at_checked(room.min(text.len())) {
        Some((first, _)) => out.push_str(first),
        None => Err(AllocError),
    }
}

/// The limit of a text of the file, in which types of other modules have their scopes.
pub(crate) struct TextLimit;

impl Limit<Declared> for TextLimit {
    ghost use Rattle.full_names.specs.declared.limit.Scopes.TheVariants.{Written};

    ghost scopes = { Written };

    fn is_reached(&self, declared: &Declared) -> bool {
        declared.left == 0
    }

    fn scopes_of_names(&self) -> Scopes {
        Scopes::Written
    }
}

/// Begins a text of the file.
pub(crate) fn begin_text(declared: &mut Declared)
    ensures { Begins declared.old declared.new }
{
    declared.left = LIMIT + 1;
    declared.begun = declared.text.len();
}

/// Whether a quote is open at the end of a text.
fn is_open(text: &[u8]) -> bool
    ensures { result ≡ is_open text.now }
{
    text.iter().filter(|byte| **byte == b'\'').count() % 2 == 1
}

/// What marks a cut after a text.
fn cut_mark(text: &[u8]) -> &'static str
    ensures { result.now ≡ cut_mark text.now }
{
    if is_open(text) { "'.." } else { ".." }
}

/// Ends a text of the file that was written: appends a mark if it was cut.
pub(crate) fn end_text<E: Drop>(written: Result<(), E>, declared: &mut Declared) -> Pushed
    ensures { OnOk result (IsOk written × Ends declared.old declared.new) }
{
    if written.is_err() {
        return Err(AllocError);
    }
    if declared.left == 0 {
        let bytes = declared.text.as_bytes();
        let mark = cut_mark(bytes.split_at(declared.begun.min(bytes.len())).1);
        return push_plain(mark, declared);
    }
    Ok(())
}

/// Appends a name of the file (II.5.3).
pub(crate) fn push_text(name: &str, declared: &mut Declared) -> Pushed
    ensures { OnOk result (string_bytes declared.new.text ≡ string_bytes declared.old.text ++ cut_text (name_text Dotted name.now)) }
{
    begin_text(declared);
    let written = write_name(declared, NameKind::Dotted, name, &TextLimit);
    end_text(written, declared)
}

/// Appends a text of the file as it is between quotes.
pub(crate) fn push_string(text: &str, declared: &mut Declared) -> Pushed
    ensures { OnOk result (string_bytes declared.new.text ≡ string_bytes declared.old.text ++ cut_text (quoted_bytes text.now)) }
{
    begin_text(declared);
    let written = write_quoted(declared, text, &TextLimit);
    end_text(written, declared)
}

/// Appends a text of the program, as it is.
pub(crate) fn push_plain(text: &str, declared: &mut Declared) -> Pushed
    ensures { OnOk result (string_bytes declared.new.text ≡ string_bytes declared.old.text ++ text.now) }
{
    declared.text.push_str(text)
}
