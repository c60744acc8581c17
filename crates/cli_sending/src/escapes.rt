//! Reads the escapes of a text.
ghost use Rattle.std.specs.Prelude.{◌≡◌, ◌≤◌, ◌<◌, length, take, IsSome};
ghost use Rattle.std.specs.Char.{digit_value};
ghost use Rattle.cli_sending.specs.Escapes.{byte_of, escape_of, escaped_at, escaped_start, is_quote};

/// The number of bytes of an escape after its backslash.
pub(crate) const AFTER_BACKSLASH: usize = 3;

/// Whether a byte is a quote or a backslash.
fn is_quote(byte: u8) -> bool
    ensures { result ≡ is_quote byte }
{
    byte == b'"' || byte == b'\'' || byte == b'\\'
}

/// The byte that two hexadecimal digits stand for, unless it is a quote or a backslash.
fn byte_of(high: u8, low: u8) -> Option<u8>
    ensures { result ≡ byte_of (digit_value high) (digit_value low) }
{
    let high = char::from(high).to_digit(16)?;
    let low = char::from(low).to_digit(16)?;
    let byte = (16 * high + low) as u8;
    if is_quote(byte) { None } else { Some(byte) }
}

/// The byte whose escape four bytes are.
fn escape_of(first: u8, second: u8, high: u8, low: u8) -> Option<u8>
    ensures { result ≡ escape_of first second high low }
{
    if first == b'\\' && second == b'x' {
        byte_of(high, low)
    } else {
        None
    }
}

/// The byte whose escape is at the start of a text.
#[tactic(auto, unfolding(crate::specs::Escapes::escaped_at))]
pub(crate) fn escaped_at(text: &[u8]) -> Option<u8>
    ensures { result ≡ escaped_at text.now }
{
    match text {
        [first, second, high, low, ..] => escape_of(*first, *second, *high, *low),
        _ => None,
    }
}

/// Reads the bytes whose escapes are at the start of a text, until there is no more room. Returns their number.
#[tactic(auto, using(crate::proofs::LetterLemmas::escape_is_there), unfolding(crate::specs::Escapes::escaped_start))]
pub(crate) fn read_start(text: &[u8], bytes: &mut [u8]) -> usize
    ensures count { result ≤ length bytes.new }
    ensures bytes { take result bytes.new ≡ escaped_start (length bytes.old) text.now }
{
    match (escaped_at(text), bytes.split_first_mut()) {
        (Some(byte), Some((first, later))) => {
            *first = byte;
            1 + read_start(text.split_at(1 + AFTER_BACKSLASH).1, later)
        }
        _ => 0,
    }
}
