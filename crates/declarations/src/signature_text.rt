ghost use Rattle.std.specs.Prelude.{OnOk};
ghost use Rattle.sig_grammar.specs.Syntax.{Body};
ghost use Rattle.sig_grammar.specs.Encodes.{Encodes};
ghost use Rattle.sig_text.specs.SignatureText.{text_of};
ghost use Rattle.metadata.specs.Metadata.{Metadata};
ghost use Rattle.full_names.specs.Names.{Wrote};
ghost use Rattle.full_names.specs.Texts.{ArePiecesText, IsFullNameBy, IsPieceText};

use full_names::{Limit, TextError, WriteNames, write_full_name_within, write_signature};
use navigation::ReadCells;
use std::alloc::Global;
use std::fmt;
use table_schema::{SigKind, Token};

/// The full names of types, with the allocator for the bytes of TypeSpecs that are held as values.
#[derive(Clone, Copy)]
struct FullNames {
    alloc: Global,
}

impl<S: ReadCells, W: fmt::Write, L: Limit<W>> WriteNames<S, W, L> for FullNames {
    ghost use Rattle.full_names.specs.Texts.{IsFullNameBy};

    ghost is_name = { λ model token text. IsFullNameBy L.scopes model token text };

    fn write_token(
        &self,
        source: &S,
        token: Token,
        limit: &L,
        out: &mut W,
    ) -> Result<(), TextError> {
        write_full_name_within(self.alloc, source, token, limit, out)
    }
}

/// Writes a signature in the notation of ILAsm (II.7.1, II.15.3), from its bytes in a column of a kind, with the names of
/// types as [`write_full_name`](full_names::write_full_name) writes them. When the limit is reached, what follows is passed
/// over. It does not check the bytes: if they encode no signature, it may write anything.
///
/// # Errors
///
/// `Writer` if the writer refused a part of the text. `Memory` if out of memory.
pub fn write_signature_text<S: ReadCells, W: fmt::Write, L: Limit<W>>(
    alloc: Global,
    source: &S,
    bytes: &[u8],
    kind: SigKind,
    limit: &L,
    out: &mut W,
) -> Result<(), TextError>
    ensures { (model : Metadata) → S.shows source.now model → (signature : Body) → Encodes kind signature bytes.now
        → OnOk result (Wrote W.write_str_gives out.old (ArePiecesText (IsPieceText (IsFullNameBy L.scopes model)) (text_of signature)) out.new) }
{
    source.holds_one();
    write_signature(&FullNames { alloc }, source, bytes, kind, limit, out)
}
