ghost use Rattle.std.specs.Prelude.{◌≡◌, ◌<◌, ◌^◌, ◌==◌, List, ℕ, Some, length, option_map, if◌then◌else◌};
ghost use Rattle.sig_grammar.specs.ElementTypes as of;
ghost use Rattle.sig_recogniser.specs.Skips.{left, number_left, skip_index, skip_modifiers, skip_prefixes};

use crate::position::{
    Position, byte, has_modifier, has_prefix, long_number, middle_number, noted, short_number,
    wide_number,
};
use sig_grammar::element_type::PINNED;
use sig_grammar::token_of_index;

/// The position after a type index whose number was read (II.23.2.8).
#[inline(always)]
#[tactic(auto, unfolding(crate::specs::Skips::skip_index, crate::specs::Skips::number_left, sig_grammar::specs::Reading::index_at))]
fn after_index_number(number: u32, behind: Position, counts: &[u32; 45]) -> Option<Position>
    requires { number < 2 ^ 29 }
    ensures { (bytes : List ℕ) (here : Position) → number_left (left bytes here) ≡ Some (number, left bytes behind) → option_map (left bytes) result ≡ skip_index counts.now (left bytes here) }
{
    let token = token_of_index(number)?;
    Some(noted(behind, number, token, counts))
}

/// The position after a type index (II.23.2.8).
///
/// Each form of the number has its own way to the end, so that nothing is put together in between.
#[inline(never)]
#[tactic(auto, unfolding(crate::specs::Skips::skip_index, crate::specs::Skips::number_left, sig_grammar::specs::Reading::index_at))]
pub fn after_index(bytes: &[u8], here: Position, counts: &[u32; 45]) -> Option<Position>
    requires { length bytes.now < 2 ^ 29 }
    ensures { option_map (left bytes.now) result ≡ skip_index counts.now (left bytes.now here) }
{
    if let Some((number, behind)) = short_number(bytes, here) {
        return after_index_number(number, behind, counts);
    }
    if let Some((number, behind)) = middle_number(bytes, here) {
        return after_index_number(number, behind, counts);
    }
    if let Some((number, behind)) = wide_number(bytes, here) {
        return after_index_number(number, behind, counts);
    }
    let (number, behind) = long_number(bytes, here)?;
    after_index_number(number, behind, counts)
}

/// The position after modifiers, one after another (II.23.2.7).
pub fn after_modifiers(bytes: &[u8], here: Position, counts: &[u32; 45]) -> Option<Position>
    requires { length bytes.now < 2 ^ 29 }
    ensures { option_map (left bytes.now) result ≡ skip_modifiers counts.now (left bytes.now here) }
{
    let mut here = here;
    while has_modifier(bytes, here) {
        let (_, behind) = byte(bytes, here)?;
        here = after_index(bytes, behind, counts)?;
    }
    Some(here)
}

/// The position after a modifier or PINNED whose first byte was read.
fn after_prefix(bytes: &[u8], code: u8, behind: Position, counts: &[u32; 45]) -> Option<Position>
    requires { length bytes.now < 2 ^ 29 }
    ensures { option_map (left bytes.now) result ≡ (if code == of.PINNED then Some (left bytes.now behind) else skip_index counts.now (left bytes.now behind)) }
{
    if code == PINNED {
        return Some(behind);
    }
    after_index(bytes, behind, counts)
}

/// The position after the modifiers and PINNED (II.23.2.6).
pub fn after_prefixes(bytes: &[u8], here: Position, counts: &[u32; 45]) -> Option<Position>
    requires { length bytes.now < 2 ^ 29 }
    ensures { option_map (left bytes.now) result ≡ skip_prefixes counts.now (left bytes.now here) }
{
    let mut here = here;
    while has_prefix(bytes, here) {
        let (code, behind) = byte(bytes, here)?;
        here = after_prefix(bytes, code, behind, counts)?;
    }
    Some(here)
}
