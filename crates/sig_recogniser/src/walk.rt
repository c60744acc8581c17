ghost use Rattle.std.specs.Prelude.{◌≡◌, ◌<◌, ◌^◌, length, ◌/◌, ◌%◌, ◌==◌, option_map, option_and_then};
ghost use Rattle.sig_recogniser.specs.Skips.{left, skip_core, skip_by, skip_typed, skip_target, skip_instance, skip_many, skip_content, skip_slot, skip_ret, skip_void_or, skip_params, skip_generic, skip_method, skip_shape};

use crate::position::{Position, after_number, after_sentinel, byte, has_modifier, number};
use crate::shape::after_shape;
use crate::type_index::{after_index, after_modifiers};
use sig_grammar::Element;
use sig_grammar::element_type::{
    ARRAY, BYREF, CLASS, FNPTR, GENERICINST, MVAR, PTR, SZARRAY, TYPEDBYREF, VALUETYPE, VAR, VOID,
};
use sig_grammar::method_byte::{begins_method, is_generic, may_have_sentinel};

/// The position after a core of at most the given depth (II.23.2.12).
#[cycle(walk)]
#[inline(always)]
#[tactic(auto, using(crate::proofs::Loops::skip_core_next, crate::proofs::Loops::skip_core_none))]
fn after_core(bytes: &[u8], here: Position, depth: u8, counts: &[u32; 45]) -> Option<Position>
    requires { length bytes.now < 2 ^ 29 }
    ensures { option_map (left bytes.now) result ≡ skip_core counts.now depth (left bytes.now here) }
{
    if depth == 0 {
        return None;
    }
    let (code, here) = byte(bytes, here)?;
    if Element::from_byte(code).is_some() {
        return Some(here);
    }
    after_code(bytes, code, here, depth - 1, counts)
}

/// The position after a core with first byte `code`. The types in it are at most `depth` deep.
#[cycle(walk)]
#[tactic(auto, using(crate::proofs::Loops::skip_deep_some), unfolding(crate::specs::Skips::skip_by))]
fn after_code(
    bytes: &[u8],
    code: u8,
    here: Position,
    depth: u8,
    counts: &[u32; 45],
) -> Option<Position>
    requires { length bytes.now < 2 ^ 29 }
    ensures { option_map (left bytes.now) result ≡ skip_by counts.now depth (skip_core counts.now depth) code (left bytes.now here) }
{
    match code {
        PTR => {
            if depth == 0 {
                return None;
            }
            after_target(bytes, here, depth, counts)
        }
        VALUETYPE | CLASS => after_index(bytes, here, counts),
        VAR | MVAR => after_number(bytes, here),
        ARRAY => after_array(bytes, here, depth, counts),
        GENERICINST => after_instance(bytes, here, depth, counts),
        FNPTR => {
            if depth == 0 {
                return None;
            }
            after_method(bytes, here, true, depth, counts)
        }
        SZARRAY => after_typed(bytes, here, depth, counts),
        _ => None,
    }
}

/// The position after the type of the items of an array, and its shape.
#[cycle(walk)]
#[inline(never)]
fn after_array(bytes: &[u8], here: Position, depth: u8, counts: &[u32; 45]) -> Option<Position>
    requires { length bytes.now < 2 ^ 29 }
    ensures { option_map (left bytes.now) result ≡ option_and_then skip_shape (skip_typed counts.now (skip_core counts.now depth) (left bytes.now here)) }
{
    let here = after_typed(bytes, here, depth, counts)?;
    after_shape(bytes, here)
}

/// The position after modifiers and a type.
#[cycle(walk)]
#[inline(never)]
#[tactic(auto, unfolding(crate::specs::Skips::skip_typed))]
fn after_modified_type(
    bytes: &[u8],
    here: Position,
    depth: u8,
    counts: &[u32; 45],
) -> Option<Position>
    requires { length bytes.now < 2 ^ 29 }
    ensures { option_map (left bytes.now) result ≡ skip_typed counts.now (skip_core counts.now depth) (left bytes.now here) }
{
    let here = after_modifiers(bytes, here, counts)?;
    after_core(bytes, here, depth, counts)
}

/// The position after a type. Most types have no modifier.
#[cycle(walk)]
#[tactic(auto, using(crate::proofs::ItemLemmas::modifiers_end), unfolding(crate::specs::Skips::skip_typed))]
fn after_typed(bytes: &[u8], here: Position, depth: u8, counts: &[u32; 45]) -> Option<Position>
    requires { length bytes.now < 2 ^ 29 }
    ensures { option_map (left bytes.now) result ≡ skip_typed counts.now (skip_core counts.now depth) (left bytes.now here) }
{
    if has_modifier(bytes, here) {
        return after_modified_type(bytes, here, depth, counts);
    }
    after_core(bytes, here, depth, counts)
}

/// The position after the target of a pointer.
#[cycle(walk)]
#[inline(never)]
#[tactic(auto, unfolding(crate::specs::Skips::skip_target, crate::specs::Skips::skip_void_or))]
fn after_target(bytes: &[u8], here: Position, depth: u8, counts: &[u32; 45]) -> Option<Position>
    requires { length bytes.now < 2 ^ 29 }
    ensures { option_map (left bytes.now) result ≡ skip_target counts.now (skip_core counts.now depth) (left bytes.now here) }
{
    let here = after_modifiers(bytes, here, counts)?;
    match byte(bytes, here)? {
        (VOID, here) => Some(here),
        _ => after_core(bytes, here, depth, counts),
    }
}

/// The position after the type index and the arguments of a generic type.
#[cycle(walk)]
#[inline(never)]
#[tactic(auto, unfolding(crate::specs::Skips::skip_instance, crate::specs::Skips::skip_named, crate::specs::Skips::skip_counted))]
fn after_instance(bytes: &[u8], here: Position, depth: u8, counts: &[u32; 45]) -> Option<Position>
    requires { length bytes.now < 2 ^ 29 }
    ensures { option_map (left bytes.now) result ≡ skip_instance counts.now (skip_core counts.now depth) (left bytes.now here) }
{
    let (code, here) = byte(bytes, here)?;
    if code != VALUETYPE && code != CLASS {
        return None;
    }
    let here = after_index(bytes, here, counts)?;
    let (count, here) = number(bytes, here)?;
    after_types(bytes, here, count, depth, counts)
}

/// The position after `count` types.
#[cycle(walk)]
#[tactic(auto, using(crate::proofs::Loops::skip_many_next, crate::proofs::Loops::skip_many_end))]
pub fn after_types(
    bytes: &[u8],
    here: Position,
    count: u32,
    depth: u8,
    counts: &[u32; 45],
) -> Option<Position>
    requires { length bytes.now < 2 ^ 29 }
    ensures { option_map (left bytes.now) result ≡ skip_many (skip_typed counts.now (skip_core counts.now depth)) count (left bytes.now here) }
{
    let mut here = here;
    for done in 0..count {
        here = after_typed(bytes, here, depth, counts)?;
    }
    Some(here)
}

/// The position after the kind and type of a parameter, a field or a local variable (II.23.2.10).
#[cycle(walk)]
#[inline(always)]
#[tactic(auto, unfolding(crate::specs::Skips::skip_content))]
pub fn after_content(
    bytes: &[u8],
    here: Position,
    depth: u8,
    counts: &[u32; 45],
) -> Option<Position>
    requires { length bytes.now < 2 ^ 29 }
    ensures { option_map (left bytes.now) result ≡ skip_content counts.now (skip_core counts.now depth) (left bytes.now here) }
{
    match byte(bytes, here)? {
        (TYPEDBYREF, here) => Some(here),
        (BYREF, here) => after_typed(bytes, here, depth, counts),
        _ => after_core(bytes, here, depth, counts),
    }
}

/// The position after modifiers and a parameter or a field.
#[cycle(walk)]
#[inline(never)]
#[tactic(auto, unfolding(crate::specs::Skips::skip_slot))]
fn after_modified_slot(
    bytes: &[u8],
    here: Position,
    depth: u8,
    counts: &[u32; 45],
) -> Option<Position>
    requires { length bytes.now < 2 ^ 29 }
    ensures { option_map (left bytes.now) result ≡ skip_slot counts.now (skip_core counts.now depth) (left bytes.now here) }
{
    let here = after_modifiers(bytes, here, counts)?;
    after_content(bytes, here, depth, counts)
}

/// The position after a parameter or a field. Most have no modifier.
#[cycle(walk)]
#[tactic(auto, using(crate::proofs::ItemLemmas::modifiers_end), unfolding(crate::specs::Skips::skip_slot))]
pub fn after_slot(bytes: &[u8], here: Position, depth: u8, counts: &[u32; 45]) -> Option<Position>
    requires { length bytes.now < 2 ^ 29 }
    ensures { option_map (left bytes.now) result ≡ skip_slot counts.now (skip_core counts.now depth) (left bytes.now here) }
{
    if has_modifier(bytes, here) {
        return after_modified_slot(bytes, here, depth, counts);
    }
    after_content(bytes, here, depth, counts)
}

/// The position after VOID or the type of a result.
#[cycle(walk)]
#[inline(always)]
#[tactic(auto, unfolding(crate::specs::Skips::skip_void_or))]
fn after_void_or(bytes: &[u8], here: Position, depth: u8, counts: &[u32; 45]) -> Option<Position>
    requires { length bytes.now < 2 ^ 29 }
    ensures { option_map (left bytes.now) result ≡ skip_void_or (skip_content counts.now (skip_core counts.now depth)) (left bytes.now here) }
{
    match byte(bytes, here)? {
        (VOID, here) => Some(here),
        _ => after_content(bytes, here, depth, counts),
    }
}

/// The position after modifiers and a result.
#[cycle(walk)]
#[inline(never)]
#[tactic(auto, unfolding(crate::specs::Skips::skip_ret))]
fn after_modified_ret(
    bytes: &[u8],
    here: Position,
    depth: u8,
    counts: &[u32; 45],
) -> Option<Position>
    requires { length bytes.now < 2 ^ 29 }
    ensures { option_map (left bytes.now) result ≡ skip_ret counts.now (skip_core counts.now depth) (left bytes.now here) }
{
    let here = after_modifiers(bytes, here, counts)?;
    after_void_or(bytes, here, depth, counts)
}

/// The position after a result (II.23.2.11). Most have no modifier.
#[cycle(walk)]
#[tactic(auto, using(crate::proofs::ItemLemmas::modifiers_end), unfolding(crate::specs::Skips::skip_ret))]
pub fn after_ret(bytes: &[u8], here: Position, depth: u8, counts: &[u32; 45]) -> Option<Position>
    requires { length bytes.now < 2 ^ 29 }
    ensures { option_map (left bytes.now) result ≡ skip_ret counts.now (skip_core counts.now depth) (left bytes.now here) }
{
    if has_modifier(bytes, here) {
        return after_modified_ret(bytes, here, depth, counts);
    }
    after_void_or(bytes, here, depth, counts)
}

/// The position after `count` parameters, with SENTINEL before one of them if it is allowed.
#[cycle(walk)]
#[tactic(auto, using(crate::proofs::Loops::skip_params_next, crate::proofs::Loops::skip_params_end))]
pub fn after_params(
    bytes: &[u8],
    here: Position,
    count: u32,
    allowed: bool,
    depth: u8,
    counts: &[u32; 45],
) -> Option<Position>
    requires { length bytes.now < 2 ^ 29 }
    ensures { option_map (left bytes.now) result ≡ skip_params counts.now (skip_core counts.now depth) allowed count (left bytes.now here) }
{
    let mut here = here;
    let mut allowed = allowed;
    for done in 0..count {
        let (marked, slot) = after_sentinel(bytes, here, allowed);
        allowed = allowed && !marked;
        here = after_slot(bytes, slot, depth, counts)?;
    }
    Some(here)
}

/// The position after the number of generic parameters, if the first byte of the method says that the
/// method is generic.
#[tactic(auto, unfolding(crate::specs::Skips::skip_generic))]
fn after_generic(bytes: &[u8], here: Position, code: u8) -> Option<Position>
    requires { length bytes.now < 2 ^ 29 }
    ensures { option_map (left bytes.now) result ≡ skip_generic (code / 16 % 2 == 1) (left bytes.now here) }
{
    if is_generic(code) {
        return after_number(bytes, here);
    }
    Some(here)
}

/// The position after a method; `own` says whether it may have a SENTINEL (II.23.2.1 to II.23.2.3).
#[cycle(walk)]
#[inline(never)]
#[tactic(auto, unfolding(crate::specs::Skips::skip_method, crate::specs::Skips::skip_call))]
pub fn after_method(
    bytes: &[u8],
    here: Position,
    own: bool,
    depth: u8,
    counts: &[u32; 45],
) -> Option<Position>
    requires { length bytes.now < 2 ^ 29 }
    ensures { option_map (left bytes.now) result ≡ skip_method counts.now own (skip_core counts.now depth) (left bytes.now here) }
{
    let (code, here) = byte(bytes, here)?;
    if !begins_method(code) {
        return None;
    }
    let here = after_generic(bytes, here, code)?;
    let (count, here) = number(bytes, here)?;
    let here = after_ret(bytes, here, depth, counts)?;
    let allowed = own && may_have_sentinel(code);
    after_params(bytes, here, count, allowed, depth, counts)
}
