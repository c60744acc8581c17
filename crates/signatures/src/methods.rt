ghost use Rattle.std.specs.Prelude.{◌≡◌, ◌&&◌, ◌/◌, ◌%◌, ◌==◌, true, map};
ghost use Rattle.sig_grammar.specs.Syntax as sig;
ghost use Rattle.sig_grammar.specs.Views.{core_of, slot_of, method_of};
ghost use Rattle.sig_grammar.specs.Reading.{change, core_at, params_at, takes_sentinel as kind_takes_sentinel, generic_at, method_at};
ghost use Rattle.signatures.specs.Gives.{Gives};

use crate::error::SigError;
use crate::head::{byte, number, with_room};
use crate::slots::{ret, slot};
use sig_grammar::method_byte::{
    begins_method, calling_convention, has_explicit_this, has_this, is_generic, may_have_sentinel,
};
use sig_grammar::{Core, MethodSig, Slot};
use sig_recogniser::sentinel;
use std::alloc::Global;

/// Whether SENTINEL is allowed in a method with this first byte: its calling convention is C or vararg, and
/// `own` allows it.
fn takes_sentinel(code: u8, own: bool) -> bool
    ensures { result ≡ (own && kind_takes_sentinel (code % 16)) }
{
    own && may_have_sentinel(code)
}

/// The number of generic parameters of a method, if its first byte says that the method is generic, and the
/// remaining bytes.
#[tactic(auto, unfolding(sig_grammar::specs::Reading::generic_at))]
fn generic(bytes: &[u8], code: u8) -> Result<(Option<u32>, &[u8]), SigError>
    ensures { Gives (λ x. (x.0, x.1.now)) result (generic_at (code / 16 % 2 == 1) bytes.now) }
{
    if !is_generic(code) {
        return Ok((None, bytes));
    }
    let (count, tail) = number(bytes)?;
    Ok((Some(count), tail))
}

/// Builds `count` parameters, and the number of them before SENTINEL, if it is allowed and present.
#[cycle(build)]
pub fn params(
    alloc: Global,
    bytes: &[u8],
    count: u32,
    allowed: bool,
    depth: u8,
) -> Result<(Vec<Slot>, Option<u32>, &[u8]), SigError>
    ensures { Gives (λ x. ((map slot_of x.0.items, x.1), x.2.now)) result (params_at (core_at depth) allowed count bytes.now) }
{
    let mut all = with_room(alloc, bytes, count)?;
    let mut before = None;
    let mut tail = bytes;
    for done in 0..count {
        let (marked, behind) = sentinel(tail, allowed && before.is_none());
        let (one, next) = slot(alloc, behind, depth)?;
        before = before.or(marked.then_some(done));
        all.push(one)?;
        tail = next;
    }
    Ok((all, before, tail))
}

/// Builds a method; `own` says whether it may have a SENTINEL (II.23.2.1 to II.23.2.3).
#[cycle(build)]
#[tactic(auto, using(crate::proofs::Cores::view_method), unfolding(sig_grammar::specs::Reading::method_at, sig_grammar::specs::Reading::method_from))]
pub fn method(
    alloc: Global,
    bytes: &[u8],
    own: bool,
    depth: u8,
) -> Result<(MethodSig, &[u8]), SigError>
    ensures { Gives (λ x. (method_of x.0, x.1.now)) result (method_at own (core_at depth) bytes.now) }
{
    let (code, tail) = byte(bytes)?;
    if !begins_method(code) {
        return Err(SigError::Bad);
    }
    let (generic, tail) = generic(tail, code)?;
    let (count, tail) = number(tail)?;
    let (ret, tail) = ret(alloc, tail, depth)?;
    let allowed = takes_sentinel(code, own);
    match params(alloc, tail, count, allowed, depth) {
        Ok((params, sentinel, tail)) => {
            let method = MethodSig {
                kind: calling_convention(code),
                this: has_this(code),
                explicit: has_explicit_this(code),
                generic,
                ret,
                params,
                sentinel,
            };
            Ok((method, tail))
        }
        Err(error) => {
            drop(ret);
            Err(error)
        }
    }
}

/// Builds a pointer to a method, after FNPTR.
#[cycle(build)]
#[tactic(auto, using(sig_grammar::proofs::ViewLemmas::view_function))]
pub fn function(alloc: Global, bytes: &[u8], depth: u8) -> Result<(Core, &[u8]), SigError>
    ensures { Gives (λ x. (core_of x.0, x.1.now)) result (change sig.function (method_at true (core_at depth)) bytes.now) }
{
    let (method, tail) = method(alloc, bytes, true, depth)?;
    Ok((Core::Function(Box::new(alloc, method)?), tail))
}
