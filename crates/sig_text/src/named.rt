ghost use Rattle.std.specs.Prelude.{◌≡◌, true, false, List, ℕ, Option, None, OnOk, is_some, is_ok};
ghost use Rattle.std.specs.Fmt.{WritesText};
ghost use Rattle.table_schema.specs.declared.token.Token.{Token};
ghost use Rattle.sig_text.specs.PieceText.{piece_text};
ghost use Rattle.sig_text.specs.Refused.{refused_after};

use crate::sink::TextSink;
use std::fmt;
use table_schema::Token;

/// Writes the names of rows.
pub trait TokenNames {
    /// The text that is written for a row, or `None` if the impl does not specify it.
    ghost name_text: { Self → Token → Option (List ℕ) } = { λ _ _. None };

    /// Writes the name of a row of TypeDef, TypeRef or TypeSpec. The row need not exist.
    ///
    /// # Errors
    ///
    /// The writer refused a part of the name.
    fn write_name<W: fmt::Write>(&self, token: Token, writer: &mut W) -> fmt::Result
        ensures { OnOk result (WritesText W.write_str_gives writer.old (name_text self.now token) writer.new) };
}

/// A sink that writes to a [`fmt::Write`], with names from a [`TokenNames`].
#[derive(Drop)]
pub struct NamedText<W, N> {
    /// The target of the text.
    pub writer: W,
    /// The source of the names.
    pub names: N,
    /// Whether the writer refused a word.
    pub refused: bool,
}

impl<W: fmt::Write, N: TokenNames> NamedText<W, N> {
    /// A sink that has not yet refused a word.
    pub fn new(writer: W, names: N) -> NamedText<W, N>
        ensures { result ≡ record { writer = writer; names = names; refused = false } }
    {
        NamedText {
            writer,
            names,
            refused: false,
        }
    }
}

/// The result of a sink's call from the result of its writer. It records whether the word was refused.
fn answer(refused: &mut bool, written: fmt::Result) -> Option<()>
    ensures words { refused.new ≡ refused_after result refused.old }
    ensures taken { is_some result ≡ is_ok written }
{
    if written.is_err() {
        *refused = true;
        return None;
    }
    Some(())
}

impl<W: fmt::Write, N: TokenNames> TextSink for NamedText<W, N> {
    ghost refused = { λ s. s.refused };

    ghost gives = { λ s piece taken t. taken ≡ true → (t.names ≡ s.names) × WritesText W.write_str_gives s.writer (piece_text (N.name_text s.names) piece) t.writer };

    fn text(&mut self, text: &str) -> Option<()> {
        let written = self.writer.write_str(text);
        answer(&mut self.refused, written)
    }

    fn number(&mut self, number: u32) -> Option<()> {
        let written = write!(self.writer, "{number}");
        answer(&mut self.refused, written)
    }

    fn signed(&mut self, value: i64) -> Option<()> {
        let written = write!(self.writer, "{value}");
        answer(&mut self.refused, written)
    }

    fn name(&mut self, token: Token) -> Option<()> {
        let written = self.names.write_name(token, &mut self.writer);
        answer(&mut self.refused, written)
    }
}
