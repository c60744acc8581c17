//! Names as words of ILAsm: identifiers with dots between them, or texts in single quotes (II.5.2, II.5.3).
ghost use Rattle.std.specs.Prelude.{◌≡◌, ◌==◌, ℕ, ◌<◌, ◌++◌, not, List, [], All, EachIndex, IsTrue, OnOk, slice_index};
ghost use Rattle.std.specs.List.{list_all};
ghost use Rattle.full_names.specs.declared.quoted.Position.TheVariants.{Start, Within};
ghost use Rattle.std.specs.Fmt.{WritesInCalls};
ghost use Rattle.full_names.specs.Quoted.{EndsName, begins_identifier, is_dotted, is_dotted_from, is_identifier, is_in_identifier, is_of_kind, is_verbatim, is_word, name_text, position_after, quoted_byte, quoted_bytes, type_text};

use crate::limit::Limit;
use std::fmt;

/// The longest name that may be written without quotes, in bytes. So no long name is read twice.
const LONGEST_WORD: usize = 1023;

/// What a name has to be to be written without quotes.
#[derive(Clone, Copy)]
pub enum NameKind {
    /// Of a type or a parameter: an identifier (II.5.2).
    Identifier,
    /// Of a namespace, an assembly, a field and others: identifiers with dots between them (II.5.3).
    Dotted,
    /// Of a member after its type: the same, or `.ctor` or `.cctor` (II.15.3).
    Member,
}

/// The role of each byte in an identifier (II.5.2): `2` if one can begin with it, `1` if it can only follow, `0` if none has it.
static ROLES: [u8; 256] =
    *b"0000000000000000000000000000000000002000000000001111111111000002222222222222222222222222222000022222222222222222222222222220000000000000000000000000000000000000000000000000000000000000000000000000000000000000000000000000000000000000000000000000000000000000";

/// Whether an identifier can begin with a byte (II.5.2).
fn begins_identifier(byte: u8) -> bool
    ensures { result ≡ begins_identifier byte }
{
    ROLES[byte as usize] == b'2'
}

/// Whether a byte can be in an identifier (II.5.2).
fn is_in_identifier(byte: u8) -> bool
    ensures { result ≡ is_in_identifier byte }
{
    ROLES[byte as usize] != b'0'
}

/// Where a byte is in a name of identifiers with dots between them.
#[derive(Clone, Copy)]
enum Position {
    /// Where an identifier begins.
    Start,
    /// After the first byte of an identifier.
    Within,
}

/// The position after a byte within an identifier, if the byte can be there.
fn position_within(byte: u8) -> Option<Position>
    ensures { result ≡ position_after Within byte }
{
    if is_in_identifier(byte) {
        return Some(Position::Within);
    }
    if byte == b'.' {
        Some(Position::Start)
    } else {
        None
    }
}

/// The position after a byte at the start of an identifier, if the byte can be there.
fn position_started(byte: u8) -> Option<Position>
    ensures { result ≡ position_after Start byte }
{
    if begins_identifier(byte) {
        Some(Position::Within)
    } else {
        None
    }
}

/// The position after a byte, if the byte can be there.
fn position_after(position: Position, byte: u8) -> Option<Position>
    ensures { result ≡ position_after position byte }
{
    match position {
        Position::Start => position_started(byte),
        Position::Within => position_within(byte),
    }
}

/// Whether a name can end at a position.
fn is_end(position: Position) -> bool
    ensures { result ≡ is_dotted_from position [] }
{
    match position {
        Position::Start => false,
        Position::Within => true,
    }
}

/// Whether a text is identifiers with dots between them (II.5.3).
fn is_dotted(text: &[u8]) -> bool
    ensures { result ≡ is_dotted text.now }
{
    let mut position = Position::Start;
    for byte in text {
        match position_after(position, *byte) {
            Some(next) => position = next,
            None => return false,
        }
    }
    is_end(position)
}

/// Whether all bytes can be in an identifier (II.5.2).
fn are_in_identifier(text: &[u8]) -> bool
    ensures { result ≡ list_all is_in_identifier text.now }
{
    text.iter().all(|byte| is_in_identifier(*byte))
}

/// Whether a text is an identifier (II.5.2).
fn is_identifier(text: &[u8]) -> bool
    ensures { result ≡ is_identifier text.now }
{
    match text.first() {
        Some(first) => begins_identifier(*first) && are_in_identifier(text),
        None => false,
    }
}

/// Whether a name is what ILAsm takes for one of a kind.
fn is_of_kind(kind: NameKind, name: &[u8]) -> bool
    ensures { result ≡ is_of_kind kind name.now }
{
    match kind {
        NameKind::Identifier => is_identifier(name),
        NameKind::Dotted => is_dotted(name),
        NameKind::Member => is_dotted(name)
            || name == b".ctor".as_slice()
            || name == b".cctor".as_slice(),
    }
}

/// Whether a name is written without quotes.
fn is_word(kind: NameKind, name: &[u8]) -> bool
    ensures { result ≡ is_word kind name.now }
{
    name.len() <= LONGEST_WORD && is_of_kind(kind, name)
}

/// Whether a byte is written as it is between quotes.
fn is_verbatim(byte: u8) -> bool
    ensures { result ≡ is_verbatim byte }
{
    32 <= byte && byte <= 126 && byte != b'"' && byte != b'\'' && byte != b'\\'
}

/// Whether all bytes are written as they are between quotes. It reads all of them, many at a time.
fn are_verbatim(text: &[u8]) -> bool
    ensures { IsTrue result → EachIndex text.now (λ k. IsTrue (is_verbatim (slice_index text.now k))) }
{
    let mut all = true;
    for byte in text {
        all &= is_verbatim(*byte);
    }
    all
}

/// Writes a byte between quotes.
fn write_byte<W: fmt::Write>(out: &mut W, byte: u8) -> fmt::Result
    ensures { OnOk result (WritesInCalls W.write_str_gives out.old (quoted_byte byte) out.new) }
{
    if is_verbatim(byte) {
        return write!(out, "{}", char::from(byte));
    }
    write!(out, "\\x{byte:02x}")
}

/// Writes bytes between quotes, one by one, until the limit is reached.
fn write_bytes<W: fmt::Write, L: Limit<W>>(out: &mut W, bytes: &[u8], limit: &L) -> fmt::Result
    ensures { OnOk result (WritesInCalls W.write_str_gives out.old (quoted_bytes bytes.now) out.new) }
{
    for byte in bytes {
        if limit.is_reached(out) {
            return Ok(());
        }
        write_byte(out, *byte)?;
    }
    Ok(())
}

/// Writes a text as it is between quotes: a byte that is a quote, a backslash or not printable ASCII as `\x` and two
/// hexadecimal digits, and any other byte as it is. When the limit is reached, the other bytes are passed over.
pub fn write_quoted<W: fmt::Write, L: Limit<W>>(out: &mut W, text: &str, limit: &L) -> fmt::Result
    ensures { OnOk result (WritesInCalls W.write_str_gives out.old (quoted_bytes text.now) out.new) }
{
    if are_verbatim(text.as_bytes()) {
        return write!(out, "{text}");
    }
    write_bytes(out, text.as_bytes(), limit)
}

/// Writes a name: a word of ILAsm (II.5.2, II.5.3) of at most 1,023 bytes as it is, and any other name in single quotes,
/// as [`write_quoted`] writes it. Keywords of ILAsm are no exception: they are not quoted.
pub fn write_name<W: fmt::Write, L: Limit<W>>(
    out: &mut W,
    kind: NameKind,
    name: &str,
    limit: &L,
) -> fmt::Result
    ensures { OnOk result (WritesInCalls W.write_str_gives out.old (name_text kind name.now) out.new) }
{
    if is_word(kind, name.as_bytes()) {
        return write!(out, "{name}");
    }
    write!(out, "'")?;
    write_quoted(out, name, limit)?;
    write!(out, "'")
}

/// Writes the name of a type, after its namespace and a dot unless the namespace is empty.
pub fn write_type_name<W: fmt::Write, L: Limit<W>>(
    out: &mut W,
    namespace: &str,
    name: &str,
    limit: &L,
) -> fmt::Result
    ensures { OnOk result (WritesInCalls W.write_str_gives out.old (type_text namespace.now name.now) out.new) }
{
    if namespace.is_empty() {
        return write_name(out, NameKind::Identifier, name, limit);
    }
    write_name(out, NameKind::Dotted, namespace, limit)?;
    write!(out, ".")?;
    write_name(out, NameKind::Identifier, name, limit)
}

/// The text of a name determines the name, and where the text ends: a reader that knows quotes reads one name, and what
/// follows it. What follows a name is never a byte of a name.
pub fn names_are_read()
    ensures { (kind other : NameKind) (first second before after : List ℕ) → All (λ byte. byte < 256) first → All (λ byte. byte < 256) second
        → EndsName before → EndsName after → name_text kind first ++ before ≡ name_text other second ++ after → (first ≡ second) × (before ≡ after) }
{}
