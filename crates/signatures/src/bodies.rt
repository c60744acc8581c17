ghost use Rattle.std.specs.Prelude.{◌≡◌, map};
ghost use Rattle.sig_grammar.specs.Syntax as sig;
ghost use Rattle.sig_grammar.specs.Views.{local_of, body_of};
ghost use Rattle.sig_grammar.specs.Reading.{change, many_at, counted_at, core_at, typed_at, slot_at, ret_at};
ghost use Rattle.sig_grammar.specs.Columns.{local_at, headed_at, property_from, method_or, body_at};
ghost use Rattle.signatures.specs.Gives.{Gives};

use crate::error::SigError;
use crate::head::{byte, number, with_room};
use crate::methods::{method, params};
use crate::modifiers::prefixes;
use crate::slots::{content, ret, slot};
use crate::types::types;
use sig_grammar::{FieldSig, InstanceSig, Local, LocalsSig, PropertySig, SigBody};
use std::alloc::Global;
use table_schema::SigKind;

/// Builds a local variable (II.23.2.6).
#[tactic(auto, unfolding(sig_grammar::specs::Columns::local_at, sig_grammar::specs::Reading::both))]
fn local(alloc: Global, bytes: &[u8], depth: u8) -> Result<(Local, &[u8]), SigError>
    ensures { Gives (λ x. (local_of x.0, x.1.now)) result (local_at (core_at depth) bytes.now) }
{
    let (prefix, tail) = prefixes(alloc, bytes)?;
    let (kind, tail) = content(alloc, tail, depth)?;
    Ok((Local { prefix, kind }, tail))
}

/// Builds `count` local variables.
fn variables(
    alloc: Global,
    bytes: &[u8],
    count: u32,
    depth: u8,
) -> Result<(Vec<Local>, &[u8]), SigError>
    ensures { Gives (λ x. (map local_of x.0.items, x.1.now)) result (many_at (local_at (core_at depth)) count bytes.now) }
{
    let mut all = with_room(alloc, bytes, count)?;
    let mut tail = bytes;
    for done in 0..count {
        let (one, next) = local(alloc, tail, depth)?;
        all.push(one)?;
        tail = next;
    }
    Ok((all, tail))
}

/// Builds a field, after its first byte (II.23.2.4).
#[tactic(auto, using(crate::proofs::Cores::fails_change))]
fn field(alloc: Global, bytes: &[u8], depth: u8) -> Result<(SigBody, &[u8]), SigError>
    ensures { Gives (λ x. (body_of x.0, x.1.now)) result (change sig.field (slot_at (core_at depth)) bytes.now) }
{
    let (slot, tail) = slot(alloc, bytes, depth)?;
    Ok((SigBody::Field(FieldSig(slot)), tail))
}

/// Builds a method; `own` says whether it may have a SENTINEL (II.23.2.1, II.23.2.2).
#[tactic(auto, using(crate::proofs::Cores::fails_change))]
fn method_body(
    alloc: Global,
    bytes: &[u8],
    own: bool,
    depth: u8,
) -> Result<(SigBody, &[u8]), SigError>
    ensures { Gives (λ x. (body_of x.0, x.1.now)) result (method_or own (core_at depth) bytes.now) }
{
    let (method, tail) = method(alloc, bytes, own, depth)?;
    Ok((SigBody::Method(method), tail))
}

/// Builds a property, after its first byte, whose bit 0x20 is HASTHIS (II.23.2.5).
#[tactic(auto, using(crate::proofs::Parameters::many_is, crate::proofs::Parameters::many_fails, crate::proofs::Cores::fails_change), unfolding(sig_grammar::specs::Columns::headed_at, sig_grammar::specs::Reading::both))]
fn property(
    alloc: Global,
    bytes: &[u8],
    this: bool,
    depth: u8,
) -> Result<(SigBody, &[u8]), SigError>
    ensures { Gives (λ x. (body_of x.0, x.1.now)) result (change (property_from this) (headed_at (slot_at (core_at depth))) bytes.now) }
{
    let (count, tail) = number(bytes)?;
    let (of, tail) = slot(alloc, tail, depth)?;
    match params(alloc, tail, count, false, depth) {
        Ok((params, _, tail)) => Ok((SigBody::Property(PropertySig { this, of, params }), tail)),
        Err(error) => {
            drop(of);
            Err(error)
        }
    }
}

/// Builds the local variables of a method, after their first byte (II.23.2.6).
#[tactic(auto, unfolding(sig_grammar::specs::Reading::counted_at))]
fn locals(alloc: Global, bytes: &[u8], depth: u8) -> Result<(SigBody, &[u8]), SigError>
    ensures { Gives (λ x. (body_of x.0, x.1.now)) result (change sig.locals (counted_at (local_at (core_at depth))) bytes.now) }
{
    let (count, tail) = number(bytes)?;
    let (all, tail) = variables(alloc, tail, count, depth)?;
    Ok((SigBody::Locals(LocalsSig(all)), tail))
}

/// Builds type arguments, after their first byte (II.23.2.15).
#[tactic(auto, unfolding(sig_grammar::specs::Reading::counted_at))]
fn arguments(alloc: Global, bytes: &[u8], depth: u8) -> Result<(SigBody, &[u8]), SigError>
    ensures { Gives (λ x. (body_of x.0, x.1.now)) result (change sig.instance_body (counted_at (typed_at (core_at depth))) bytes.now) }
{
    let (count, tail) = number(bytes)?;
    let (args, tail) = types(alloc, tail, count, depth)?;
    Ok((SigBody::Instance(InstanceSig(args)), tail))
}

/// Builds a type (II.23.2.14).
#[tactic(auto, using(crate::proofs::Cores::fails_change))]
fn type_spec(alloc: Global, bytes: &[u8], depth: u8) -> Result<(SigBody, &[u8]), SigError>
    ensures { Gives (λ x. (body_of x.0, x.1.now)) result (change sig.type_spec (ret_at (core_at depth)) bytes.now) }
{
    let (ret, tail) = ret(alloc, bytes, depth)?;
    Ok((SigBody::TypeSpec(ret), tail))
}

/// Builds the signature at the start, in a column of a kind.
#[tactic(auto, using(crate::proofs::Cores::body_end), unfolding(sig_grammar::specs::Columns::body_at))]
pub fn body(
    alloc: Global,
    bytes: &[u8],
    kind: SigKind,
    depth: u8,
) -> Result<(SigBody, &[u8]), SigError>
    ensures { Gives (λ x. (body_of x.0, x.1.now)) result (body_at kind (core_at depth) bytes.now) }
{
    let (first, tail) = byte(bytes)?;
    match kind {
        SigKind::Field => match first {
            0x06 => field(alloc, tail, depth),
            _ => Err(SigError::Bad),
        },
        SigKind::MethodDef => method_body(alloc, bytes, false, depth),
        SigKind::MemberRef => match first {
            0x06 => field(alloc, tail, depth),
            _ => method_body(alloc, bytes, true, depth),
        },
        SigKind::StandAlone => match first {
            0x06 => field(alloc, tail, depth),
            0x07 => locals(alloc, tail, depth),
            _ => method_body(alloc, bytes, true, depth),
        },
        SigKind::Property => match first {
            0x08 => property(alloc, tail, false, depth),
            0x28 => property(alloc, tail, true, depth),
            _ => Err(SigError::Bad),
        },
        SigKind::TypeSpec => type_spec(alloc, bytes, depth),
        SigKind::Instance => match first {
            0x0A => arguments(alloc, tail, depth),
            _ => Err(SigError::Bad),
        },
    }
}
