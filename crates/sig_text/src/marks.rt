ghost use Rattle.std.specs.Prelude.{◌≡◌, option_map, codes, if◌then◌else◌};
ghost use Rattle.sig_text.specs.Shown.{mark_at, marks_in, marks_of};
ghost use Rattle.sig_text.specs.SignatureText.{following, modifier_text, prefix_text};
ghost use Rattle.sig_text.specs.Wrote.{Wrote};

use crate::sink::TextSink;
use crate::words::{put_name, put_text};
use sig_grammar::{Modifier, Prefix};
use sig_recogniser::{has_prefix, prefix};

/// The modifier or PINNED at the start, and the bytes after it; `None` if there is none.
fn mark(bytes: &[u8]) -> Option<(Prefix, &[u8])>
    ensures { option_map (λ x. (x.0, x.1.now)) result ≡ mark_at bytes.now }
{
    if !has_prefix(bytes) {
        return None;
    }
    prefix(bytes)
}

/// The number of modifiers and PINNED at the start, at most `most`, and the bytes after them.
fn first_marks(bytes: &[u8], most: usize) -> (usize, &[u8])
    ensures count { marks_in result.0 bytes.now ≡ marks_in most bytes.now }
    ensures tail { result.1.now ≡ (marks_in most bytes.now).1 }
{
    let mut tail = bytes;
    for count in 0..most {
        match mark(tail) {
            Some((_, next)) => tail = next,
            None => return (count, tail),
        }
    }
    (most, tail)
}

/// The number of modifiers and PINNED at the start, and the bytes after them.
#[tactic(auto, unfolding(crate::specs::Shown::marks_of))]
pub fn behind_all(bytes: &[u8]) -> (usize, &[u8])
    ensures count { marks_in result.0 bytes.now ≡ marks_of bytes.now }
    ensures tail { result.1.now ≡ (marks_of bytes.now).1 }
{
    first_marks(bytes, bytes.len())
}

/// The start of a modifier's text.
fn modifier_word(required: bool) -> &'static str
    ensures { result.now ≡ (if required then codes " modreq(" else codes " modopt(") }
{
    if required { " modreq(" } else { " modopt(" }
}

/// Writes a modifier (II.7.1.1). In the text it follows the type that it precedes in the bytes.
fn modifier<S: TextSink>(sink: &mut S, taken: &mut bool, modifier: Modifier)
    ensures { Wrote S.refused S.gives sink.old taken.old (modifier_text modifier) sink.new taken.new }
{
    put_text(sink, taken, modifier_word(modifier.required));
    put_name(sink, taken, modifier.of);
    put_text(sink, taken, ")");
}

/// Writes the modifier or PINNED at the start, if there is one.
fn one_mark<S: TextSink>(sink: &mut S, taken: &mut bool, bytes: &[u8])
    ensures { Wrote S.refused S.gives sink.old taken.old (following prefix_text (marks_in 1 bytes.now).0) sink.new taken.new }
{
    match mark(bytes) {
        Some((Prefix::Mod(of), _)) => modifier(sink, taken, of),
        Some((Prefix::Pinned, _)) => put_text(sink, taken, " pinned"),
        None => {}
    }
}

/// Writes `count` modifiers and PINNED at the start, the last one first. Each follows what it precedes in the
/// bytes. The list is split in halves, so that the recursion depth is logarithmic in `count`.
pub fn marks<S: TextSink>(sink: &mut S, taken: &mut bool, bytes: &[u8], count: usize)
    ensures { Wrote S.refused S.gives sink.old taken.old (following prefix_text (marks_in count bytes.now).0) sink.new taken.new }
{
    if !*taken {
        return;
    }
    match count {
        0 => {}
        1 => one_mark(sink, taken, bytes),
        _ => {
            let half = count / 2;
            let (_, tail) = first_marks(bytes, half);
            marks(sink, taken, tail, count - half);
            marks(sink, taken, bytes, half);
        }
    }
}
