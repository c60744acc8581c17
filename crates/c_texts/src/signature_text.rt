//! The text of a signature in a caller's buffer.
ghost use Rattle.std.specs.Prelude.{◌≡◌, ◌≤◌, ◌⊎◌, ◌^◌, ◌+◌, ◌-◌, ◌%◌, ◌++◌, false, length, replicate, take};
ghost use Rattle.std.specs.Fmt.{digit_glyph, digits};
ghost use Rattle.table_schema.specs.Tokens.{hexadecimal};
ghost use Rattle.sig_grammar.specs.Syntax.{Body};
ghost use Rattle.sig_grammar.specs.Encodes.{Encodes};
ghost use Rattle.c_texts.specs.SignatureTexts.{signature_text};
ghost use Rattle.c_texts.specs.Texts.{HasText, IsLenWithin, text_limit, with_text};

use crate::limited_text::{TEXT_LIMIT, len_within};
use crate::parts::append;
use itoa::Buffer;
use sig_text::{SigKind, TextSink, Token, write_signature};

/// The largest number of zeros of the eight digits of a row that its token leaves out.
const ROW_ZEROS: usize = 2;

/// A text in a buffer that is not longer than the limit.
#[derive(Drop)]
pub(crate) struct SignatureSink<'a> {
    pub(crate) buffer: &'a mut [u8],
    /// The length of the text so far, or one more than the limit if it is longer than that.
    pub(crate) len: usize,
    pub(crate) refused: bool,
}

impl SignatureSink<'_> {
    ghost use Rattle.std.specs.Prelude.{◌≡◌, ◌+◌, ◌≤◌, false, is_some};
    ghost use Rattle.c_texts.specs.Texts.{Extends, text_limit};
    ghost use Rattle.sig_text.specs.Refused.{refused_after};

    /// Writes bytes after the text. `None` if the text is then longer than the limit.
    fn push(&mut self, bytes: &[u8]) -> Option<()>
        ensures refusal { self.new.refused ≡ refused_after result self.old.refused }
        ensures same_buffer { self.new.buffer.ghost_name ≡ self.old.buffer.ghost_name }
        ensures written { Extends (text_limit + 1) self.old.buffer.now self.old.len bytes.now self.new.buffer.now self.new.len }
        ensures past { is_some result ≡ false → text_limit + 1 ≤ self.new.len }
    {
        self.len = append(self.buffer, self.len, bytes, TEXT_LIMIT + 1);
        if self.len <= TEXT_LIMIT {
            return Some(());
        }
        self.refused = true;
        None
    }
}

/// The hexadecimal digit of the last four bits of a number.
fn digit(number: u32) -> u8
    ensures { result ≡ digit_glyph false (number % 16) }
{
    let bits = (number % 16) as u8;
    if bits < 10 {
        b'0' + bits
    } else {
        b'a' - 10 + bits
    }
}

/// The two hexadecimal digits of a byte.
fn pair(byte: u8) -> [u8; 2]
    ensures { result ≡ hexadecimal 2 byte }
{
    [digit(u32::from(byte / 16)), digit(u32::from(byte))]
}

/// The hexadecimal digits of a number after zeros, and the index of the first digit.
fn digits(number: u32) -> ([u8; 8], usize)
    ensures text { result.0 ≡ replicate result.1 48 ++ digits 16 false number }
    ensures long { length result.0 ≡ 8 }
    ensures first { result.1 ≤ 7 }
{
    let mut text = [b'0'; 8];
    let mut first = 7;
    let mut left = number;
    while left > 15 {
        text[first] = digit(left);
        left /= 16;
        first -= 1;
    }
    text[first] = digit(left);
    (text, first)
}

impl TextSink for SignatureSink<'_> {
    ghost use Rattle.std.specs.Prelude.{◌≡◌, ◌+◌, ◌≤◌, false};
    ghost use Rattle.c_texts.specs.Texts.{Extends, text_limit};
    ghost use Rattle.c_texts.specs.SignatureTexts.{piece_bytes};

    ghost refused = { λ s. s.refused };

    ghost gives = { λ s piece taken t. (t.buffer.ghost_name ≡ s.buffer.ghost_name)
        × Extends (text_limit + 1) s.buffer.now s.len (piece_bytes piece) t.buffer.now t.len × (taken ≡ false → text_limit + 1 ≤ t.len) };

    fn text(&mut self, text: &str) -> Option<()> {
        self.push(text.as_bytes())
    }

    fn number(&mut self, number: u32) -> Option<()> {
        let mut digits = Buffer::new();
        self.push(digits.format(number).as_bytes())
    }

    fn signed(&mut self, value: i64) -> Option<()> {
        let mut digits = Buffer::new();
        self.push(digits.format(value).as_bytes())
    }

    fn name(&mut self, token: Token) -> Option<()> {
        let (row, first) = digits(token.row);
        let (_, row) = row.split_at(first.min(ROW_ZEROS));
        self.push(&pair(token.table.number()))?;
        self.push(row)
    }
}

/// Writes the text of the signature in a blob into a buffer that is not longer than the limit, up to its length. Returns
/// the length of the text, or one more than the limit if it is longer than that.
fn write_first(blob: &[u8], kind: SigKind, buffer: &mut [u8]) -> usize
    requires { length buffer.old ≤ text_limit }
    ensures { (signature : Body) → Encodes kind signature blob.now
        → HasText (text_limit + 1) buffer.old (signature_text signature) buffer.new result }
{
    let mut text = SignatureSink {
        buffer,
        len: 0,
        refused: false,
    };
    let _ = write_signature(&mut text, blob, kind);
    text.len
}

/// Writes the signature in a blob in the notation of ILAsm into a buffer, up to its length, with tokens as the names of
/// types (II.7.1, II.15.3). Returns the length of the whole text, or `TOO_LONG` if it is more than 65,536 bytes; the
/// buffer then has the first 65,536 of them, or those that fit.
pub fn write_signature_text(blob: &[u8], kind: SigKind, buffer: &mut [u8]) -> usize
    ensures text { (signature : Body) → Encodes kind signature blob.now
        → (buffer.new ≡ with_text buffer.old (take text_limit (signature_text signature))) × IsLenWithin result (signature_text signature) }
    ensures within { (result ≤ 2 ^ 16) ⊎ (result ≡ 2 ^ 64 - 1) }
{
    let (first, _) = buffer.split_at_mut(buffer.len().min(TEXT_LIMIT));
    len_within(write_first(blob, kind, first))
}
