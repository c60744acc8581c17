ghost use Rattle.std.specs.Prelude.{◌≡◌};
ghost use Rattle.sig_grammar.specs.Reading.{modifiers_at, prefixes_at};
ghost use Rattle.signatures.specs.Gives.{Gives};

use crate::error::SigError;
use sig_grammar::{Modifier, Prefix};
use sig_recogniser::{has_modifier, has_prefix, modifier, prefix};
use std::alloc::Global;

/// Builds the modifiers at the start.
pub fn modifiers(alloc: Global, bytes: &[u8]) -> Result<(Vec<Modifier>, &[u8]), SigError>
    ensures { Gives (λ x. (x.0.items, x.1.now)) result (modifiers_at bytes.now) }
{
    let mut all = Vec::new(alloc);
    let mut tail = bytes;
    while has_modifier(tail) {
        let (one, next) = modifier(tail).ok_or(SigError::Bad)?;
        all.push(one)?;
        tail = next;
    }
    Ok((all, tail))
}

/// Builds the modifiers and PINNED at the start.
pub fn prefixes(alloc: Global, bytes: &[u8]) -> Result<(Vec<Prefix>, &[u8]), SigError>
    ensures { Gives (λ x. (x.0.items, x.1.now)) result (prefixes_at bytes.now) }
{
    let mut all = Vec::new(alloc);
    let mut tail = bytes;
    while has_prefix(tail) {
        let (one, next) = prefix(tail).ok_or(SigError::Bad)?;
        all.push(one)?;
        tail = next;
    }
    Ok((all, tail))
}
