//! The texts of signatures, in which names of types are written by the caller's rule.
ghost use Rattle.std.specs.Prelude.{◌≡◌, ℕ, List, None, OnOk};
ghost use Rattle.table_schema.specs.declared.token.Token.{Token as TheToken};
ghost use Rattle.sig_grammar.specs.Syntax.{Body};
ghost use Rattle.sig_grammar.specs.Encodes.{Encodes};
ghost use Rattle.sig_text.specs.SignatureText.{text_of};
ghost use Rattle.metadata.specs.Metadata.{Metadata};
ghost use Rattle.full_names.specs.Names.{Wrote};
ghost use Rattle.full_names.specs.TextEnd.{IsWhole};
ghost use Rattle.full_names.specs.Texts.{ArePiecesText, IsPieceText};

use crate::limit::Limit;
use crate::parts::{write_number, write_signed, write_text};
use crate::text_end::{TextEnd, keep, keep_refusal, result_of};
use crate::text_error::TextError;
use navigation::ReadCells;
use sig_text::{TextSink, write_encoded};
use std::fmt;
use table_schema::{SigKind, Token};

/// How the names of types are written in the text of a signature.
pub trait WriteNames<S: ReadCells, W: fmt::Write, L: Limit<W>> {
    ghost use Rattle.std.specs.Prelude.{ℕ, List, OnOk};
    ghost use Rattle.table_schema.specs.declared.token.Token.{Token as TheToken};
    ghost use Rattle.metadata.specs.Metadata.{Metadata};
    ghost use Rattle.full_names.specs.Names.{Wrote};

    /// The text of a token.
    ghost is_name: { Metadata → TheToken → List ℕ → Type 0 };

    /// Writes the text of a token.
    ///
    /// # Errors
    ///
    /// `Writer` if the writer refused a part of the text. `Memory` if out of memory.
    fn write_token(&self, source: &S, token: Token, limit: &L, out: &mut W) -> Result<(), TextError>
        ensures { (model : Metadata) → S.shows source.now model → OnOk result (Wrote W.write_str_gives out.old (is_name model token) out.new) };
}

/// A sink for the text of a signature.
#[derive(Drop)]
struct SignatureText<'s, 'w, S, W, L, N> {
    names: &'s N,
    source: &'s S,
    writer: &'w mut W,
    limit: &'s L,
    /// Why it takes no more, if it does not.
    ended: Option<TextEnd>,
}

impl<S: ReadCells, W: fmt::Write, L: Limit<W>, N: WriteNames<S, W, L>> TextSink
    for SignatureText<'_, '_, S, W, L, N> {
    ghost use Rattle.std.specs.Prelude.{◌≡◌, ℕ, List, false, true, is_some};
    ghost use Rattle.metadata.specs.Metadata.{Metadata};
    ghost use Rattle.full_names.specs.Names.{Wrote};
    ghost use Rattle.full_names.specs.TextEnd.{IsWhole};
    ghost use Rattle.full_names.specs.Texts.{IsPieceText};

    ghost refused = { λ s. is_some s.ended };

    ghost gives = { λ s piece taken t.
        (taken ≡ true → (t.ended ≡ s.ended) × (t.source.now ≡ s.source.now) × (t.writer.ghost_name ≡ s.writer.ghost_name)
        × ((model : Metadata) → S.shows s.source.now model
        → Wrote W.write_str_gives s.writer.now (IsPieceText (N.is_name model) piece) t.writer.now))
        × (taken ≡ false → IsWhole t.ended → (t.writer.ghost_name ≡ s.writer.ghost_name)
        × ((text : List ℕ) → W.write_str_gives s.writer.now text t.writer.now)) };

    fn text(&mut self, text: &str) -> Option<()> {
        if self.limit.is_reached(self.writer) {
            self.ended = Some(TextEnd::Limit);
            return None;
        }
        let written = write_text(self.writer, text);
        keep_refusal(&mut self.ended, written)
    }

    fn number(&mut self, number: u32) -> Option<()> {
        let written = write_number(self.writer, number);
        keep_refusal(&mut self.ended, written)
    }

    fn signed(&mut self, value: i64) -> Option<()> {
        let written = write_signed(self.writer, value);
        keep_refusal(&mut self.ended, written)
    }

    fn name(&mut self, token: Token) -> Option<()> {
        let written = self
            .names
            .write_token(self.source, token, self.limit, self.writer);
        keep(&mut self.ended, written)
    }
}

/// Puts the text of a signature into its sink, from its bytes in a column of a kind.
fn put_signature<S: ReadCells, W: fmt::Write, L: Limit<W>, N: WriteNames<S, W, L>>(
    sink: &mut SignatureText<'_, '_, S, W, L, N>,
    bytes: &[u8],
    kind: SigKind,
)
    ensures { (model : Metadata) → S.shows sink.old.source.now model → ((token : TheToken) → (text : List ℕ) × N.is_name model token text)
        → (signature : Body) → Encodes kind signature bytes.now → sink.old.ended ≡ None → IsWhole sink.new.ended → (sink.new.writer.ghost_name ≡ sink.old.writer.ghost_name)
        × Wrote W.write_str_gives sink.old.writer.now (ArePiecesText (IsPieceText (N.is_name model)) (text_of signature)) sink.new.writer.now }
{
    let _ = write_encoded(sink, bytes, kind);
}

/// Writes a signature in the notation of ILAsm (II.7.1, II.15.3), from its bytes in a column of a kind. When the limit is
/// reached, what follows is passed over. It does not check the bytes: if they encode no signature, it may write anything.
///
/// # Errors
///
/// `Writer` if the writer refused a part of the text. `Memory` if out of memory.
pub fn write_signature<S: ReadCells, W: fmt::Write, L: Limit<W>, N: WriteNames<S, W, L>>(
    names: &N,
    source: &S,
    bytes: &[u8],
    kind: SigKind,
    limit: &L,
    out: &mut W,
) -> Result<(), TextError>
    ensures { (model : Metadata) → S.shows source.now model → ((token : TheToken) → (text : List ℕ) × N.is_name model token text)
        → (signature : Body) → Encodes kind signature bytes.now
        → OnOk result (Wrote W.write_str_gives out.old (ArePiecesText (IsPieceText (N.is_name model)) (text_of signature)) out.new) }
{
    let mut sink = SignatureText {
        names,
        source,
        writer: out,
        limit,
        ended: None,
    };
    put_signature(&mut sink, bytes, kind);
    result_of(sink.ended)
}
