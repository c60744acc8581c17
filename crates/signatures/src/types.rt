ghost use Rattle.std.specs.Prelude.{◌≡◌, map};
ghost use Rattle.sig_grammar.specs.Syntax as sig;
ghost use Rattle.sig_grammar.specs.Views.{core_of, type_of};
ghost use Rattle.sig_grammar.specs.Reading.{change, many_at, core_at, core_by, typed_at, pointer_to, target_at, array_from, array_at, instance_from, instance_at};
ghost use Rattle.signatures.specs.Gives.{Gives};

use crate::error::SigError;
use crate::head::{byte, index, number, with_room};
use crate::leaf::{class, method_parameter, type_parameter, value_type};
use crate::methods::function;
use crate::modifiers::modifiers;
use crate::shape::shape;
use sig_grammar::element_type::{
    ARRAY, CLASS, FNPTR, GENERICINST, MVAR, PTR, SZARRAY, VALUETYPE, VAR, VOID,
};
use sig_grammar::{Core, Element, TypeSig};
use std::alloc::Global;

/// Builds a core of at most the given depth (II.23.2.12).
#[cycle(build)]
#[tactic(auto, using(crate::proofs::Cores::core_none, crate::proofs::Cores::core_end, crate::proofs::Cores::core_other))]
pub fn core(alloc: Global, bytes: &[u8], depth: u8) -> Result<(Core, &[u8]), SigError>
    ensures { Gives (λ x. (core_of x.0, x.1.now)) result (core_at depth bytes.now) }
{
    if depth == 0 {
        return Err(SigError::Bad);
    }
    let (code, tail) = byte(bytes)?;
    match Element::from_byte(code) {
        Some(element) => Ok((Core::Simple(element), tail)),
        None => core_behind(alloc, code, tail, depth - 1),
    }
}

/// Builds a core after its first byte. The types in it are at most `depth` deep.
#[cycle(build)]
#[tactic(auto, using(crate::proofs::Cores::deep_some), unfolding(sig_grammar::specs::Reading::core_by))]
fn core_behind(alloc: Global, code: u8, bytes: &[u8], depth: u8) -> Result<(Core, &[u8]), SigError>
    ensures { Gives (λ x. (core_of x.0, x.1.now)) result (core_by depth (core_at depth) code bytes.now) }
{
    match code {
        PTR => {
            if depth == 0 {
                return Err(SigError::Bad);
            }
            pointer(alloc, bytes, depth)
        }
        VALUETYPE => value_type(bytes),
        CLASS => class(bytes),
        VAR => type_parameter(bytes),
        ARRAY => array(alloc, bytes, depth),
        GENERICINST => instance(alloc, bytes, depth),
        FNPTR => {
            if depth == 0 {
                return Err(SigError::Bad);
            }
            function(alloc, bytes, depth)
        }
        SZARRAY => vector(alloc, bytes, depth),
        MVAR => method_parameter(bytes),
        _ => Err(SigError::Bad),
    }
}

/// Builds a type.
#[cycle(build)]
#[tactic(auto, using(crate::proofs::Cores::view_typed), unfolding(sig_grammar::specs::Reading::typed_at, sig_grammar::specs::Reading::both))]
fn typed(alloc: Global, bytes: &[u8], depth: u8) -> Result<(TypeSig, &[u8]), SigError>
    ensures { Gives (λ x. (type_of x.0, x.1.now)) result (typed_at (core_at depth) bytes.now) }
{
    let (mods, tail) = modifiers(alloc, bytes)?;
    let (core, tail) = core(alloc, tail, depth)?;
    Ok((TypeSig { mods, core }, tail))
}

/// Builds `count` types.
#[cycle(build)]
pub fn types(
    alloc: Global,
    bytes: &[u8],
    count: u32,
    depth: u8,
) -> Result<(Vec<TypeSig>, &[u8]), SigError>
    ensures { Gives (λ x. (map type_of x.0.items, x.1.now)) result (many_at (typed_at (core_at depth)) count bytes.now) }
{
    let mut all = with_room(alloc, bytes, count)?;
    let mut tail = bytes;
    for done in 0..count {
        let (one, next) = typed(alloc, tail, depth)?;
        all.push(one)?;
        tail = next;
    }
    Ok((all, tail))
}

/// Builds a pointer, after PTR.
#[cycle(build)]
#[tactic(auto, using(sig_grammar::proofs::ViewLemmas::view_pointer, sig_grammar::proofs::ViewLemmas::view_void_pointer), unfolding(sig_grammar::specs::Reading::target_at, sig_grammar::specs::Reading::both, sig_grammar::specs::Reading::void_or))]
fn pointer(alloc: Global, bytes: &[u8], depth: u8) -> Result<(Core, &[u8]), SigError>
    ensures { Gives (λ x. (core_of x.0, x.1.now)) result (change pointer_to (target_at (core_at depth)) bytes.now) }
{
    let (mods, tail) = modifiers(alloc, bytes)?;
    let (code, behind) = byte(tail)?;
    if code == VOID {
        return Ok((Core::Pointer(mods, None), behind));
    }
    let (to, tail) = core(alloc, tail, depth)?;
    Ok((Core::Pointer(mods, Some(Box::new(alloc, to)?)), tail))
}

/// Builds an array of one dimension, after SZARRAY.
#[cycle(build)]
#[tactic(auto, using(sig_grammar::proofs::ViewLemmas::view_vector))]
fn vector(alloc: Global, bytes: &[u8], depth: u8) -> Result<(Core, &[u8]), SigError>
    ensures { Gives (λ x. (core_of x.0, x.1.now)) result (change sig.vector (typed_at (core_at depth)) bytes.now) }
{
    let (of, tail) = typed(alloc, bytes, depth)?;
    Ok((Core::Vector(Box::new(alloc, of)?), tail))
}

/// Builds an array with a shape, after ARRAY.
#[cycle(build)]
#[tactic(auto, using(sig_grammar::proofs::ViewLemmas::view_array), unfolding(sig_grammar::specs::Reading::array_at, sig_grammar::specs::Reading::both))]
fn array(alloc: Global, bytes: &[u8], depth: u8) -> Result<(Core, &[u8]), SigError>
    ensures { Gives (λ x. (core_of x.0, x.1.now)) result (change array_from (array_at (core_at depth)) bytes.now) }
{
    let (of, tail) = typed(alloc, bytes, depth)?;
    let of = Box::new(alloc, of)?;
    let (shape, tail) = shape(alloc, tail)?;
    Ok((Core::Array(of, shape), tail))
}

/// Builds an instance of a generic type, after GENERICINST.
#[cycle(build)]
#[tactic(auto, using(sig_grammar::proofs::ViewLemmas::view_instance), unfolding(sig_grammar::specs::Reading::instance_at, sig_grammar::specs::Reading::both, sig_grammar::specs::Reading::named_at, sig_grammar::specs::Reading::counted_at))]
fn instance(alloc: Global, bytes: &[u8], depth: u8) -> Result<(Core, &[u8]), SigError>
    ensures { Gives (λ x. (core_of x.0, x.1.now)) result (change instance_from (instance_at (core_at depth)) bytes.now) }
{
    let (code, tail) = byte(bytes)?;
    if code != VALUETYPE && code != CLASS {
        return Err(SigError::Bad);
    }
    let (of, tail) = index(tail)?;
    let (count, tail) = number(tail)?;
    let (args, tail) = types(alloc, tail, count, depth)?;
    let value = code == VALUETYPE;
    Ok((Core::Instance { value, of, args }, tail))
}
