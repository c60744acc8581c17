ghost use Rattle.std.specs.Prelude.{◌≡◌};
ghost use Rattle.sig_grammar.specs.Views.{content_of, slot_of, ret_of};
ghost use Rattle.sig_grammar.specs.Reading.{core_at, content_at, slot_at, ret_at};
ghost use Rattle.signatures.specs.Gives.{Gives};

use crate::error::SigError;
use crate::head::byte;
use crate::modifiers::modifiers;
use crate::types::core;
use sig_grammar::element_type::{BYREF, TYPEDBYREF, VOID};
use sig_grammar::{Ret, Slot, SlotKind};
use std::alloc::Global;

/// Builds the kind and type of a parameter, a field or a local variable (II.23.2.10).
#[cycle(build)]
#[tactic(auto, using(sig_grammar::proofs::ViewLemmas::view_typed_ref, sig_grammar::proofs::ViewLemmas::view_plain, sig_grammar::proofs::ViewLemmas::view_by_ref), unfolding(sig_grammar::specs::Reading::content_at, sig_grammar::specs::Reading::both))]
pub fn content(alloc: Global, bytes: &[u8], depth: u8) -> Result<(SlotKind, &[u8]), SigError>
    ensures { Gives (λ x. (content_of x.0, x.1.now)) result (content_at (core_at depth) bytes.now) }
{
    let (code, behind) = byte(bytes)?;
    match code {
        TYPEDBYREF => Ok((SlotKind::TypedRef, behind)),
        BYREF => {
            let (mods, tail) = modifiers(alloc, behind)?;
            let (core, tail) = core(alloc, tail, depth)?;
            Ok((SlotKind::ByRef(mods, core), tail))
        }
        _ => {
            let (core, tail) = core(alloc, bytes, depth)?;
            Ok((SlotKind::Plain(core), tail))
        }
    }
}

/// Builds a parameter or a field.
#[cycle(build)]
#[tactic(auto, using(crate::proofs::Cores::view_slot), unfolding(sig_grammar::specs::Reading::slot_at, sig_grammar::specs::Reading::both))]
pub fn slot(alloc: Global, bytes: &[u8], depth: u8) -> Result<(Slot, &[u8]), SigError>
    ensures { Gives (λ x. (slot_of x.0, x.1.now)) result (slot_at (core_at depth) bytes.now) }
{
    let (mods, tail) = modifiers(alloc, bytes)?;
    let (kind, tail) = content(alloc, tail, depth)?;
    Ok((Slot { mods, kind }, tail))
}

/// Builds a result (II.23.2.11).
#[cycle(build)]
#[tactic(auto, using(crate::proofs::Cores::view_slot_ret, sig_grammar::proofs::ViewLemmas::view_void_ret), unfolding(sig_grammar::specs::Reading::ret_at, sig_grammar::specs::Reading::both, sig_grammar::specs::Reading::void_or))]
pub fn ret(alloc: Global, bytes: &[u8], depth: u8) -> Result<(Ret, &[u8]), SigError>
    ensures { Gives (λ x. (ret_of x.0, x.1.now)) result (ret_at (core_at depth) bytes.now) }
{
    let (mods, tail) = modifiers(alloc, bytes)?;
    let (code, behind) = byte(tail)?;
    if code == VOID {
        return Ok((Ret::Void(mods), behind));
    }
    let (kind, tail) = content(alloc, tail, depth)?;
    Ok((Ret::Slot(Slot { mods, kind }), tail))
}
