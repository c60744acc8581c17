ghost use Rattle.std.specs.Prelude.{◌≡◌, ◌↔◌, ℕ, IsTrue, List, EachIndex, slice_index};
ghost use Rattle.table_schema.specs.declared.column.SigKind.{SigKind as TheKind};
ghost use Rattle.sig_grammar.specs.Syntax.{Body};
ghost use Rattle.sig_grammar.specs.Encodes.{Encodes, short};
ghost use Rattle.signatures.specs.LongForms.{BeginsNoLongForm};

/// The first byte of a number in two bytes, if one is enough.
const IN_TWO: u8 = 0x80;

/// The same, of a negative number.
const NEGATIVE_IN_TWO: u8 = 0xBF;

/// The first byte of a number in four bytes, if one or two are enough.
const IN_FOUR: u8 = 0xC0;

/// The same, of a negative number.
const NEGATIVE_IN_FOUR: u8 = 0xDF;

/// Whether no packed number that begins with this byte is longer than necessary (II.23.2).
fn begins_no_long_form(byte: u8) -> bool
    ensures { IsTrue result ↔ BeginsNoLongForm byte }
{
    byte != IN_TWO && byte != NEGATIVE_IN_TWO && byte != IN_FOUR && byte != NEGATIVE_IN_FOUR
}

/// Whether no byte begins a packed number that is longer than necessary.
fn has_no_long_form(blob: &[u8]) -> bool
    ensures { IsTrue result ↔ EachIndex blob.now (λ k. BeginsNoLongForm (slice_index blob.now k)) }
{
    blob.iter().all(|byte| begins_no_long_form(*byte))
}

/// Whether it is plain from the bytes of a blob that they are a canonical encoding, if they encode a signature at all
/// (II.23.2).
///
/// It looks at each byte, and decodes nothing. It is false if a byte could begin a number that is longer than necessary,
/// even if no number begins there. Most canonical encodings have no such byte.
pub fn is_plainly_canonical(blob: &[u8]) -> bool
    ensures { IsTrue result → (kind : TheKind) (signature : Body) → Encodes kind signature blob.now → blob.now ≡ short signature }
{
    packed::laws::shortest_forms_encode();
    has_no_long_form(blob)
}
