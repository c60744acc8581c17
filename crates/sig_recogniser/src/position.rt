ghost use Rattle.std.specs.Prelude.{◌≡◌, ◌<◌, ◌≤◌, ◌^◌, ◌+◌, ◌-◌, ◌*◌, [], ◌∷◌, List, ℕ, length, drop, Some, option_map, MatchOption, IfSome};
ghost use Rattle.sig_grammar.specs.Reading.{token_of, starts_modifier, starts_prefix};
ghost use Rattle.sig_recogniser.specs.Skips.{offset_of, bad_of, remains, bad_token as noted_token, left, number_left, skip_number, is_marked, behind_mark, noted as noted_with};

use packed::read_unsigned;
use sig_grammar::element_type::{CMOD_OPT, CMOD_REQD, PINNED, SENTINEL};
use sig_grammar::{names_row, token_of_index};
use table_schema::{TableId, Token};

/// One more than the greatest offset.
const OFFSETS: u64 = 0x1_0000_0000;

/// The least first byte of a number in two bytes (II.23.2).
const TWO_BYTES: u8 = 0x80;

/// The least first byte of a number in four bytes (II.23.2).
const FOUR_BYTES: u8 = 0xC0;

/// The least first byte of no number (II.23.2).
const NO_NUMBER: u8 = 0xE0;

/// A position in the bytes of a signature: what a walk passed so far.
///
/// The low 32 bits are the number of bytes before it. The high 32 bits are one more than the number of the first type
/// index before it whose row does not exist, or 0 if there is none. As one number, an optional position is returned in
/// registers.
#[derive(Clone, Copy)]
pub struct Position {
    pub(crate) bits: u64,
}

/// The position before all bytes.
pub const START: Position = Position { bits: 0 };

/// The number of bytes before a position.
#[inline(always)]
fn offset(here: Position) -> u32
    ensures { result ≡ offset_of here }
{
    (here.bits % OFFSETS) as u32
}

/// What is kept of the first type index before a position whose row does not exist.
#[inline(always)]
fn bad(here: Position) -> u32
    ensures { result ≡ bad_of here }
{
    (here.bits / OFFSETS) as u32
}

/// The position after some more bytes.
#[inline(always)]
fn onward(here: Position, count: u32) -> Position
    requires { offset_of here + count < 2 ^ 32 }
    ensures offset { offset_of result ≡ offset_of here + count }
    ensures bad { bad_of result ≡ bad_of here }
{
    Position {
        bits: here.bits + u64::from(count),
    }
}

/// The same position, with the number of a type index whose row does not exist.
fn with_bad(here: Position, number: u32) -> Position
    requires none { bad_of here ≡ 0 }
    requires limit { number < 2 ^ 29 }
    ensures offset { offset_of result ≡ offset_of here }
    ensures bad { bad_of result ≡ number + 1 }
{
    Position {
        bits: here.bits + u64::from(number + 1) * OFFSETS,
    }
}

/// The first type index before a position whose row does not exist.
#[tactic(auto, using(crate::proofs::Positions::bad_none, crate::proofs::Positions::bad_some))]
pub fn bad_token(here: Position) -> Option<Token>
    ensures { result ≡ noted_token here }
{
    let bad = bad(here);
    if bad == 0 {
        return None;
    }
    let table = TableId::TypeDef;
    Some(token_of_index(bad - 1).unwrap_or(Token { table, row: 0 }))
}

/// The bytes after a position.
#[inline(always)]
#[tactic(auto, using(std::proofs::lemmas::List::drop_min), unfolding(crate::specs::Skips::remains))]
pub fn bytes_from(bytes: &[u8], here: Position) -> &[u8]
    ensures { result.now ≡ remains bytes.now here }
{
    let offset = offset(here) as usize;
    let (_, tail) = bytes.split_at(offset.min(bytes.len()));
    tail
}

/// The byte after a position.
#[inline(always)]
#[tactic(auto, using(std::proofs::lemmas::List::drop_more, std::proofs::lemmas::List::drop_all), unfolding(crate::specs::Skips::remains))]
fn first_byte(bytes: &[u8], here: Position) -> Option<u8>
    ensures byte { MatchOption result (remains bytes.now here ≡ []) (λ code. remains bytes.now here ≡ code ∷ drop (offset_of here + 1) bytes.now) }
    ensures within { IfSome result (λ code. offset_of here < length bytes.now) }
{
    let code = bytes.get(offset(here) as usize)?;
    Some(*code)
}

/// The byte after a position, and the position after it.
#[inline(always)]
#[tactic(auto, unfolding(crate::specs::Skips::remains, crate::specs::Skips::bad_token))]
pub fn byte(bytes: &[u8], here: Position) -> Option<(u8, Position)>
    requires { length bytes.now < 2 ^ 29 }
    ensures { MatchOption result (remains bytes.now here ≡ []) (λ x. (remains bytes.now here ≡ x.0 ∷ remains bytes.now x.1) × (noted_token x.1 ≡ noted_token here)) }
{
    let code = first_byte(bytes, here)?;
    Some((code, onward(here, 1)))
}

/// Whether a custom modifier is after a position (II.23.2.7).
#[inline(always)]
pub fn has_modifier(bytes: &[u8], here: Position) -> bool
    ensures { result ≡ starts_modifier (remains bytes.now here) }
{
    matches!(first_byte(bytes, here), Some(CMOD_REQD | CMOD_OPT))
}

/// Whether a custom modifier or PINNED is after a position (II.23.2.6).
#[inline(always)]
pub fn has_prefix(bytes: &[u8], here: Position) -> bool
    ensures { result ≡ starts_prefix (remains bytes.now here) }
{
    matches!(first_byte(bytes, here), Some(CMOD_REQD | CMOD_OPT | PINNED))
}

/// Whether SENTINEL is after a position (II.23.2.2) and allowed, and the position after it. If it is not there or
/// not allowed, the position stays.
#[inline(always)]
pub fn after_sentinel(bytes: &[u8], here: Position, allowed: bool) -> (bool, Position)
    requires { length bytes.now < 2 ^ 29 }
    ensures marked { result.0 ≡ is_marked allowed (left bytes.now here) }
    ensures behind { left bytes.now result.1 ≡ behind_mark result.0 (left bytes.now here) }
{
    if !allowed {
        return (false, here);
    }
    match byte(bytes, here) {
        Some((SENTINEL, behind)) => (true, behind),
        _ => (false, here),
    }
}

/// The packed number after a position (II.23.2), and the position after it. For a number of more than one byte.
#[cold]
#[inline(never)]
pub fn long_number(bytes: &[u8], here: Position) -> Option<(u32, Position)>
    requires { length bytes.now < 2 ^ 29 }
    ensures number { option_map (λ x. (x.0, left bytes.now x.1)) result ≡ number_left (left bytes.now here) }
    ensures limit { IfSome result (λ x. x.0 < 2 ^ 29) }
{
    packed::laws::shortest_forms_encode();
    let (number, count) = read_unsigned(bytes_from(bytes, here))?;
    let next = onward(here, count as u32);
    Some((number, next))
}

/// The packed number of one byte after a position, and the position after it; `None` if another form is there.
#[inline(always)]
#[tactic(auto, using(crate::proofs::Positions::number_short))]
pub fn short_number(bytes: &[u8], here: Position) -> Option<(u32, Position)>
    requires { length bytes.now < 2 ^ 29 }
    ensures number { IfSome result (λ x. number_left (left bytes.now here) ≡ Some (x.0, left bytes.now x.1)) }
    ensures limit { IfSome result (λ x. x.0 < 2 ^ 29) }
{
    let (first, behind) = byte(bytes, here)?;
    if first < TWO_BYTES {
        return Some((u32::from(first), behind));
    }
    None
}

/// The packed number of two bytes after a position, and the position after it; `None` if another form is there.
#[inline(always)]
pub fn middle_number(bytes: &[u8], here: Position) -> Option<(u32, Position)>
    requires { length bytes.now < 2 ^ 29 }
    ensures number { IfSome result (λ x. number_left (left bytes.now here) ≡ Some (x.0, left bytes.now x.1)) }
    ensures limit { IfSome result (λ x. x.0 < 2 ^ 29) }
{
    let (first, behind) = byte(bytes, here)?;
    if first < TWO_BYTES || first >= FOUR_BYTES {
        return None;
    }
    let (second, next) = byte(bytes, behind)?;
    let high = u32::from(first - TWO_BYTES);
    let low = u32::from(second);
    Some((high * 0x100 + low, next))
}

/// The number that has a form of four bytes (II.23.2).
#[inline(always)]
fn number_of_four(first: u8, second: u8, third: u8, fourth: u8) -> u32
    requires low { 0xC0 ≤ first }
    requires high { first < 0xE0 }
    ensures value { result ≡ (first - 0xC0) * 2 ^ 24 + second * 2 ^ 16 + third * 2 ^ 8 + fourth }
    ensures limit { result < 2 ^ 29 }
{
    let high = u32::from(first - FOUR_BYTES) * 0x100_0000 + u32::from(second) * 0x1_0000;
    high + u32::from(third) * 0x100 + u32::from(fourth)
}

/// The packed number of four bytes after a position, and the position after it; `None` if another form is there.
#[inline(always)]
pub fn wide_number(bytes: &[u8], here: Position) -> Option<(u32, Position)>
    requires { length bytes.now < 2 ^ 29 }
    ensures number { IfSome result (λ x. number_left (left bytes.now here) ≡ Some (x.0, left bytes.now x.1)) }
    ensures limit { IfSome result (λ x. x.0 < 2 ^ 29) }
{
    let (first, after_first) = byte(bytes, here)?;
    if first < FOUR_BYTES || first >= NO_NUMBER {
        return None;
    }
    let (second, after_second) = byte(bytes, after_first)?;
    let (third, after_third) = byte(bytes, after_second)?;
    let (fourth, next) = byte(bytes, after_third)?;
    Some((number_of_four(first, second, third, fourth), next))
}

/// The packed number after a position (II.23.2), and the position after it.
#[inline(always)]
pub fn number(bytes: &[u8], here: Position) -> Option<(u32, Position)>
    requires { length bytes.now < 2 ^ 29 }
    ensures number { option_map (λ x. (x.0, left bytes.now x.1)) result ≡ number_left (left bytes.now here) }
    ensures limit { IfSome result (λ x. x.0 < 2 ^ 29) }
{
    if let Some(short) = short_number(bytes, here) {
        return Some(short);
    }
    long_number(bytes, here)
}

/// The position after a packed number of more than one byte.
#[cold]
#[inline(never)]
#[tactic(auto, unfolding(crate::specs::Skips::skip_number))]
fn after_long_number(bytes: &[u8], here: Position) -> Option<Position>
    requires { length bytes.now < 2 ^ 29 }
    ensures { option_map (left bytes.now) result ≡ skip_number (left bytes.now here) }
{
    let (_, behind) = long_number(bytes, here)?;
    Some(behind)
}

/// The position after a packed number.
#[inline(always)]
#[tactic(auto, unfolding(crate::specs::Skips::skip_number))]
pub fn after_number(bytes: &[u8], here: Position) -> Option<Position>
    requires { length bytes.now < 2 ^ 29 }
    ensures { option_map (left bytes.now) result ≡ skip_number (left bytes.now here) }
{
    if let Some((_, behind)) = short_number(bytes, here) {
        return Some(behind);
    }
    after_long_number(bytes, here)
}

/// A position after one more type index, that of a token: its number is kept if it is the first whose row does not
/// exist.
#[inline(always)]
#[tactic(auto, using(crate::proofs::Positions::noted_good, crate::proofs::Positions::noted_before, crate::proofs::Positions::noted_bad, crate::proofs::Positions::same_bytes))]
pub fn noted(here: Position, number: u32, token: Token, counts: &[u32; 45]) -> Position
    requires token { token_of number ≡ Some token }
    requires limit { number < 2 ^ 29 }
    ensures offset { (bytes : List ℕ) → remains bytes result ≡ remains bytes here }
    ensures bad { noted_token result ≡ noted_with counts.now (noted_token here) (token ∷ []) }
{
    if names_row(token, counts) {
        return here;
    }
    if bad(here) != 0 {
        return here;
    }
    with_bad(here, number)
}
