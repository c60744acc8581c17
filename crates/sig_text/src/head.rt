ghost use Rattle.std.specs.Prelude.{◌≡◌, ◌/◌, ◌%◌, ◌==◌};
ghost use Rattle.sig_text.specs.Shown.{byte_or, number_or, signed_or, index_or, is_marked, behind_mark, generic_or};

use sig_grammar::method_byte::is_generic;
use table_schema::{TableId, Token};

/// The first byte, and the remaining bytes. If the bytes were recognised, there is one.
pub fn byte(bytes: &[u8]) -> (u8, &[u8])
    ensures { (result.0, result.1.now) ≡ byte_or bytes.now }
{
    sig_recogniser::byte(bytes).unwrap_or((0, bytes))
}

/// The packed number at the start, and the remaining bytes. If the bytes were recognised, there is one.
pub fn number(bytes: &[u8]) -> (u32, &[u8])
    ensures { (result.0, result.1.now) ≡ number_or bytes.now }
{
    sig_recogniser::number(bytes).unwrap_or((0, bytes))
}

/// The packed signed number at the start, and the remaining bytes. If the bytes were recognised, there is one.
pub fn signed(bytes: &[u8]) -> (i32, &[u8])
    ensures { (result.0, result.1.now) ≡ signed_or bytes.now }
{
    sig_recogniser::signed(bytes).unwrap_or((0, bytes))
}

/// The type index at the start, and the remaining bytes. If the bytes were recognised, there is one.
pub fn index(bytes: &[u8]) -> (Token, &[u8])
    ensures { (result.0, result.1.now) ≡ index_or bytes.now }
{
    let none = Token {
        table: TableId::TypeDef,
        row: 0,
    };
    sig_recogniser::index(bytes).unwrap_or((none, bytes))
}

/// Whether SENTINEL is at the start, and the bytes after it.
pub fn sentinel(bytes: &[u8]) -> (bool, &[u8])
    ensures marked { result.0 ≡ is_marked bytes.now }
    ensures behind { result.1.now ≡ behind_mark bytes.now }
{
    sig_recogniser::sentinel(bytes, true)
}

/// The number of generic parameters, if the first byte of the method says that it is generic, and the remaining bytes.
#[tactic(auto, unfolding(crate::specs::Shown::generic_or))]
pub fn generic(code: u8, bytes: &[u8]) -> (Option<u32>, &[u8])
    ensures { (result.0, result.1.now) ≡ generic_or code bytes.now }
{
    if !is_generic(code) {
        return (None, bytes);
    }
    let (count, tail) = number(bytes);
    (Some(count), tail)
}
