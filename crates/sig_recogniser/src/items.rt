ghost use Rattle.std.specs.Prelude.{◌≡◌, true, Some, option_map};
ghost use Rattle.sig_grammar.specs.Reading.{starts_modifier, modifier_at, starts_prefix, prefix_at};

use crate::head::{byte, index};
use sig_grammar::element_type::{CMOD_OPT, CMOD_REQD, PINNED};
use sig_grammar::{Modifier, Prefix};

/// Whether the bytes start with a custom modifier (II.23.2.7).
#[inline(always)]
pub fn has_modifier(bytes: &[u8]) -> bool
    ensures { result ≡ starts_modifier bytes.now }
{
    matches!(bytes.first(), Some(&(CMOD_REQD | CMOD_OPT)))
}

/// The custom modifier at the start (II.23.2.7), and the remaining bytes. Call it after [`has_modifier`].
/// `None` if no type index follows the modifier's code.
#[tactic(auto, using(crate::proofs::ItemLemmas::modifier_found, crate::proofs::ItemLemmas::modifier_none))]
pub fn modifier(bytes: &[u8]) -> Option<(Modifier, &[u8])>
    requires { starts_modifier bytes.now ≡ true }
    ensures { option_map (λ x. (Some x.0, x.1.now)) result ≡ modifier_at bytes.now }
{
    let (code, tail) = byte(bytes)?;
    let (of, tail) = index(tail)?;
    let required = code == CMOD_REQD;
    Some((Modifier { required, of }, tail))
}

/// Whether the bytes start with a custom modifier or PINNED (II.23.2.6).
#[inline(always)]
pub fn has_prefix(bytes: &[u8]) -> bool
    ensures { result ≡ starts_prefix bytes.now }
{
    matches!(bytes.first(), Some(&(CMOD_REQD | CMOD_OPT | PINNED)))
}

/// The custom modifier or PINNED at the start (II.23.2.6), and the remaining bytes. Call it after
/// [`has_prefix`]. `None` if no type index follows a modifier's code.
#[tactic(auto, using(crate::proofs::ItemLemmas::prefix_starts, crate::proofs::ItemLemmas::prefix_none))]
pub fn prefix(bytes: &[u8]) -> Option<(Prefix, &[u8])>
    requires { starts_prefix bytes.now ≡ true }
    ensures { option_map (λ x. (Some x.0, x.1.now)) result ≡ prefix_at bytes.now }
{
    let (code, tail) = byte(bytes)?;
    if code == PINNED {
        return Some((Prefix::Pinned, tail));
    }
    let (modifier, tail) = modifier(bytes)?;
    Some((Prefix::Mod(modifier), tail))
}
