ghost use Rattle.std.specs.Prelude.{◌≡◌, ◌∷◌, [], ◌&&◌, MatchOption, option_map, if◌then◌else◌, drop};
ghost use Rattle.sig_grammar.specs.ElementTypes as code;
ghost use Rattle.sig_grammar.specs.Reading.{number_at, signed_at, index_at, head_is};

use packed::{read_signed, read_unsigned};
use sig_grammar::element_type::SENTINEL;
use sig_grammar::token_of_index;
use table_schema::Token;

/// The first byte, and the remaining bytes; `None` if the slice is empty.
#[inline(always)]
pub fn byte(bytes: &[u8]) -> Option<(u8, &[u8])>
    ensures { MatchOption result (bytes.now ≡ []) (λ x. bytes.now ≡ x.0 ∷ x.1.now) }
{
    let (byte, tail) = bytes.split_first()?;
    Some((*byte, tail))
}

/// The packed number at the start (II.23.2), and the remaining bytes. `None` if the bytes end within it,
/// or if the first byte is 0xE0 or more.
#[inline(always)]
#[tactic(auto, unfolding(sig_grammar::specs::Reading::number_at))]
pub fn number(bytes: &[u8]) -> Option<(u32, &[u8])>
    ensures { option_map (λ x. (x.0, x.1.now)) result ≡ number_at bytes.now }
{
    let (number, count) = read_unsigned(bytes)?;
    let (_, tail) = bytes.split_at(count);
    Some((number, tail))
}

/// The packed signed number at the start (II.23.2), and the remaining bytes; `None` as for [`number`].
#[tactic(auto, unfolding(sig_grammar::specs::Reading::signed_at))]
pub fn signed(bytes: &[u8]) -> Option<(i32, &[u8])>
    ensures { option_map (λ x. (x.0, x.1.now)) result ≡ signed_at bytes.now }
{
    let (number, count) = read_signed(bytes)?;
    let (_, tail) = bytes.split_at(count);
    Some((number, tail))
}

/// The token of the type index at the start (II.23.2.8), and the remaining bytes. `None` if there is no
/// number, or if its tag names no table. The token's row need not exist.
#[inline]
#[tactic(auto, unfolding(sig_grammar::specs::Reading::index_at))]
pub fn index(bytes: &[u8]) -> Option<(Token, &[u8])>
    ensures { option_map (λ x. (x.0, x.1.now)) result ≡ index_at bytes.now }
{
    let (number, tail) = number(bytes)?;
    let token = token_of_index(number)?;
    Some((token, tail))
}

/// Whether SENTINEL is at the start (II.23.2.2) and allowed, and the bytes after it. If it is not at the
/// start or not allowed, all bytes remain.
pub fn sentinel(bytes: &[u8], allowed: bool) -> (bool, &[u8])
    ensures marked { result.0 ≡ (allowed && head_is code.SENTINEL bytes.now) }
    ensures behind { result.1.now ≡ (if result.0 then drop 1 bytes.now else bytes.now) }
{
    match bytes.split_first() {
        Some((&SENTINEL, behind)) if allowed => (true, behind),
        _ => (false, bytes),
    }
}
