ghost use Rattle.std.specs.Prelude.{◌≡◌, is_some};
ghost use Rattle.sig_grammar.specs.Syntax.{Body};
ghost use Rattle.sig_grammar.specs.Encodes.{Encodes};
ghost use Rattle.sig_text.specs.Receives.{Receives};
ghost use Rattle.sig_text.specs.Refused.{refused_after};
ghost use Rattle.sig_text.specs.Shown.{core_shown, property_shown, counted_shown, headed_shown, body_shown};
ghost use Rattle.sig_text.specs.SignatureText.{text_of};
ghost use Rattle.sig_text.specs.Wrote.{Wrote, Passes};

use crate::head::{byte, number};
use crate::sink::TextSink;
use crate::types::{enclosed, method, slot};
use crate::words::{put_if, put_text, result_of};
use sig_grammar::DEPTH_LIMIT;
use sig_recogniser::recognise;
use table_schema::SigKind;

/// The first byte of a property that belongs to an instance (II.23.2.5).
const INSTANCE_PROPERTY: u8 = 0x28;

/// Writes a property (II.17): `instance` if it belongs to one, its type, and its parameters.
fn property<'a, S: TextSink>(sink: &mut S, taken: &mut bool, code: u8, bytes: &'a [u8]) -> &'a [u8]
    ensures { Passes S.refused S.gives sink.old taken.old (property_shown (core_shown 128) code bytes.now) sink.new taken.new result.now }
{
    let (count, tail) = number(bytes);
    put_if(sink, taken, code == INSTANCE_PROPERTY, "instance ");
    let tail = slot(sink, taken, tail, DEPTH_LIMIT);
    put_text(sink, taken, " ");
    enclosed(sink, taken, tail, count, "(", ")", DEPTH_LIMIT)
}

/// Writes a count of types, which are not counted in the text, between two marks, and returns the remaining bytes.
#[tactic(auto, unfolding(crate::specs::Shown::counted_shown))]
fn counted<'a, S: TextSink>(
    sink: &mut S,
    taken: &mut bool,
    bytes: &'a [u8],
    first: &str,
    last: &str,
) -> &'a [u8]
    ensures { Passes S.refused S.gives sink.old taken.old (counted_shown (core_shown 128) first.now last.now bytes.now) sink.new taken.new result.now }
{
    let (count, tail) = number(bytes);
    enclosed(sink, taken, tail, count, first, last, DEPTH_LIMIT)
}

/// Writes a signature by its first byte, in a column of another kind than TypeSpec.
#[tactic(auto, unfolding(crate::specs::Shown::headed_shown))]
fn headed<'a, S: TextSink>(sink: &mut S, taken: &mut bool, bytes: &'a [u8]) -> &'a [u8]
    ensures { Passes S.refused S.gives sink.old taken.old (headed_shown (core_shown 128) bytes.now) sink.new taken.new result.now }
{
    let (code, tail) = byte(bytes);
    match code {
        0x06 => slot(sink, taken, tail, DEPTH_LIMIT),
        0x07 => counted(sink, taken, tail, "(", ")"),
        0x0A => counted(sink, taken, tail, "<", ">"),
        0x08 => property(sink, taken, code, tail),
        INSTANCE_PROPERTY => property(sink, taken, code, tail),
        _ => method(sink, taken, bytes, DEPTH_LIMIT),
    }
}

/// Writes the bytes of a signature in a column of this kind.
#[tactic(auto, using(crate::proofs::Bodies::body_other), unfolding(crate::specs::Shown::body_shown))]
fn body<S: TextSink>(sink: &mut S, taken: &mut bool, bytes: &[u8], kind: SigKind)
    ensures { Wrote S.refused S.gives sink.old taken.old (body_shown (core_shown 128) kind bytes.now) sink.new taken.new }
{
    match kind {
        SigKind::TypeSpec => slot(sink, taken, bytes, DEPTH_LIMIT),
        _ => headed(sink, taken, bytes),
    };
}

/// Writes the signature that all the bytes together encode, in a column of this kind, in the notation of ILAsm
/// (II.7.1, II.15.3).
///
/// A field is written as its type. A method is written as a pointer to it: `method instance void *(int32, string)`.
/// A property is `instance int32 (string)`, local variables are `(int32, string pinned)`, and type arguments are
/// `<int32, string>`. Modifiers follow the type that they precede in the bytes, the innermost first. If the bytes
/// encode nothing, nothing is written.
///
/// # Errors
///
/// `None` if and only if the sink refused a word.
pub fn write_signature<S: TextSink>(sink: &mut S, bytes: &[u8], kind: SigKind) -> Option<()>
    ensures words { S.refused sink.new ≡ refused_after result (S.refused sink.old) }
    ensures text { (signature : Body) → Encodes kind signature bytes.now → Receives S.gives sink.old (text_of signature) (is_some result) sink.new }
    ensures nothing { ¬ ((signature : Body) × Encodes kind signature bytes.now) → sink.new ≡ sink.old }
{
    if !recognise(bytes, kind) {
        return Some(());
    }
    write_encoded(sink, bytes, kind)
}

/// The same for bytes that are known to encode a signature: it does not check them. If they encode none, it may write
/// anything.
///
/// # Errors
///
/// `None` if and only if the sink refused a word.
pub fn write_encoded<S: TextSink>(sink: &mut S, bytes: &[u8], kind: SigKind) -> Option<()>
    ensures words { S.refused sink.new ≡ refused_after result (S.refused sink.old) }
    ensures text { (signature : Body) → Encodes kind signature bytes.now → Receives S.gives sink.old (text_of signature) (is_some result) sink.new }
{
    packed::laws::numbers_are_read();
    sig_grammar::laws::indexes_are_read();
    let mut taken = true;
    body(sink, &mut taken, bytes, kind);
    result_of(taken)
}
