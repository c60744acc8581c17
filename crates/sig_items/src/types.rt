ghost use Rattle.std.specs.Prelude.{◌≡◌, ◌<◌, ◌≤◌, ℕ, suc, true, List, None, IfSome};
ghost use Rattle.sig_grammar.specs.Reading.{starts_modifier};
ghost use Rattle.sig_items.specs.declared.position.Position.TheVariants as position;
ghost use Rattle.sig_items.specs.ItemsOf.{prefix_item as item_of_prefix};
ghost use Rattle.sig_items.specs.Positions.{item_then, position_at, next_at, core_reported, code_reported, instance_reported, content_reported, types_reported, locals_reported, position_depth, frame_depth, IsLed};
ghost use Rattle.sig_items.specs.Steps.{reported, IsWithin};

use crate::item::Item;
use crate::position::{Frame, Position};
use crate::step::Step;
use sig_grammar::element_type::{
    ARRAY, BYREF, CLASS, FNPTR, GENERICINST, MVAR, PTR, SENTINEL, SZARRAY, TYPEDBYREF, VALUETYPE,
    VAR, VOID,
};
use sig_grammar::{Element, Prefix};
use sig_recogniser::{byte, has_modifier, has_prefix, index, modifier, number, prefix};

/// The frame of `count` types; `None` if there are none.
#[tactic(auto, using(crate::proofs::Counts::types_more), unfolding(crate::specs::Positions::types_reported, sig_grammar::specs::Reading::many_at))]
pub fn types(count: u32, depth: u8) -> Option<Frame>
    ensures reported { (b : List ℕ) → next_at result None b ≡ types_reported count depth b }
    ensures within { IfSome result (λ f. frame_depth f ≡ depth) }
{
    if count == 0 {
        return None;
    }
    Some(Frame::Types {
        further: count - 1,
        depth,
    })
}

/// The frame of `count` local variables; `None` if there are none.
#[tactic(auto, using(crate::proofs::Counts::locals_more), unfolding(crate::specs::Positions::locals_reported, sig_grammar::specs::Reading::many_at))]
pub fn variables(count: u32, depth: u8) -> Option<Frame>
    ensures reported { (b : List ℕ) → next_at result None b ≡ locals_reported count depth b }
    ensures within { IfSome result (λ f. frame_depth f ≡ depth) }
{
    if count == 0 {
        return None;
    }
    Some(Frame::Locals {
        further: count - 1,
        depth,
    })
}

/// Reads an instance of a generic type (II.23.2.12), after GENERICINST.
#[tactic(auto, using(crate::proofs::Arms::instance_is), unfolding(crate::specs::Positions::instance_reported, sig_grammar::specs::Reading::instance_at, sig_grammar::specs::Reading::both, sig_grammar::specs::Reading::counted_at, sig_grammar::specs::Reading::named_at))]
fn instance(bytes: &[u8], depth: u8) -> Option<Step<'_>>
    ensures reported { reported result ≡ instance_reported depth bytes.now }
    ensures within { IfSome result (IsWithin (suc depth)) }
{
    let (code, tail) = byte(bytes)?;
    if code != VALUETYPE && code != CLASS {
        return None;
    }
    let (of, tail) = index(tail)?;
    let (args, tail) = number(tail)?;
    let value = code == VALUETYPE;
    Some(Step {
        item: Item::Instance { value, of, args },
        frame: types(args, depth),
        position: None,
        tail,
    })
}

/// A step to an item that is followed by a type; `None` if no level of types is left.
fn deeper(item: Item, position: Position, tail: &[u8], depth: u8) -> Option<Step<'_>>
    ensures none { depth ≡ 0 → reported result ≡ None }
    ensures reported { 0 < depth → reported result ≡ item_then item (position_at position tail.now) }
    ensures within { position_depth position ≤ suc depth → IfSome result (IsWithin (suc depth)) }
{
    if depth == 0 {
        return None;
    }
    Some(Step::before(item, position, tail))
}

/// Reads a core after its first byte. The types in it are at most `depth` deep.
#[tactic(auto, using(crate::proofs::Arms::code_arms), unfolding(crate::specs::Positions::code_reported, sig_grammar::specs::Reading::core_by, crate::specs::Positions::instance_reported))]
fn core_behind(code: u8, tail: &[u8], depth: u8) -> Option<Step<'_>>
    ensures reported { reported result ≡ code_reported depth code tail.now }
    ensures within { IfSome result (IsWithin (suc depth)) }
{
    match code {
        PTR => deeper(Item::Pointer, Position::Target { depth }, tail, depth),
        VALUETYPE => {
            let (of, tail) = index(tail)?;
            Some(Step::leaf(Item::Value(of), tail))
        }
        CLASS => {
            let (of, tail) = index(tail)?;
            Some(Step::leaf(Item::Class(of), tail))
        }
        VAR => {
            let (number, tail) = number(tail)?;
            Some(Step::leaf(Item::Var(number), tail))
        }
        ARRAY => Some(Step {
            item: Item::Array,
            frame: Some(Frame::Shape),
            position: Some(Position::Typed { depth }),
            tail,
        }),
        GENERICINST => instance(tail, depth),
        FNPTR => deeper(Item::Function, Position::Method { depth }, tail, depth),
        SZARRAY => Some(Step::before(Item::Vector, Position::Typed { depth }, tail)),
        MVAR => {
            let (number, tail) = number(tail)?;
            Some(Step::leaf(Item::MVar(number), tail))
        }
        _ => None,
    }
}

/// Reads a core of at most the given depth (II.23.2.12).
#[tactic(auto, using(crate::proofs::Arms::core_arms))]
fn core(bytes: &[u8], depth: u8) -> Option<Step<'_>>
    ensures reported { reported result ≡ core_reported depth bytes.now }
    ensures within { IfSome result (IsWithin depth) }
{
    if depth == 0 {
        return None;
    }
    let (code, tail) = byte(bytes)?;
    match Element::from_byte(code) {
        Some(element) => Some(Step::leaf(Item::Simple(element), tail)),
        None => core_behind(code, tail, depth - 1),
    }
}

/// Reads the kind and type of a parameter, a field, a result or a local variable (II.23.2.10).
#[tactic(auto, using(crate::proofs::Arms::content_other), unfolding(crate::specs::Positions::content_reported, sig_grammar::specs::Reading::content_at))]
fn content(bytes: &[u8], depth: u8) -> Option<Step<'_>>
    ensures reported { reported result ≡ content_reported depth bytes.now }
    ensures within { IfSome result (IsWithin depth) }
{
    let (code, tail) = byte(bytes)?;
    match code {
        TYPEDBYREF => Some(Step::leaf(Item::TypedRef, tail)),
        BYREF => Some(Step::before(Item::ByRef, Position::Typed { depth }, tail)),
        _ => core(bytes, depth),
    }
}

/// Reads the modifier at the start, followed by a position.
#[tactic(auto, using(crate::proofs::Arms::position_led, crate::proofs::Arms::position_led_none))]
fn modified(bytes: &[u8], here: Position) -> Option<Step<'_>>
    requires starts { starts_modifier bytes.now ≡ true }
    requires led { IsLed here }
    ensures reported { reported result ≡ position_at here bytes.now }
    ensures within { IfSome result (IsWithin (position_depth here)) }
{
    let (modifier, tail) = modifier(bytes)?;
    Some(Step::before(Item::Modifier(modifier), here, tail))
}

/// Reads a type.
#[tactic(auto, using(crate::proofs::Arms::typed_bare))]
pub fn typed(bytes: &[u8], depth: u8) -> Option<Step<'_>>
    ensures reported { reported result ≡ position_at (position.Typed depth) bytes.now }
    ensures within { IfSome result (IsWithin depth) }
{
    if has_modifier(bytes) {
        return modified(bytes, Position::Typed { depth });
    }
    core(bytes, depth)
}

/// Reads the target of a pointer.
#[tactic(auto, using(crate::proofs::Arms::target_end, crate::proofs::Arms::target_void, crate::proofs::Arms::target_core))]
pub fn target(bytes: &[u8], depth: u8) -> Option<Step<'_>>
    ensures reported { reported result ≡ position_at (position.Target depth) bytes.now }
    ensures within { IfSome result (IsWithin depth) }
{
    if has_modifier(bytes) {
        return modified(bytes, Position::Target { depth });
    }
    match byte(bytes)? {
        (VOID, tail) => Some(Step::leaf(Item::Void, tail)),
        _ => core(bytes, depth),
    }
}

/// Reads a parameter or a field.
#[tactic(auto, using(crate::proofs::Arms::slot_bare))]
pub fn slot(bytes: &[u8], depth: u8) -> Option<Step<'_>>
    ensures reported { reported result ≡ position_at (position.Slot depth) bytes.now }
    ensures within { IfSome result (IsWithin depth) }
{
    if has_modifier(bytes) {
        return modified(bytes, Position::Slot { depth });
    }
    content(bytes, depth)
}

/// Reads a result (II.23.2.11).
#[tactic(auto, using(crate::proofs::Arms::ret_end, crate::proofs::Arms::ret_void, crate::proofs::Arms::ret_content))]
pub fn ret(bytes: &[u8], depth: u8) -> Option<Step<'_>>
    ensures reported { reported result ≡ position_at (position.Ret depth) bytes.now }
    ensures within { IfSome result (IsWithin depth) }
{
    if has_modifier(bytes) {
        return modified(bytes, Position::Ret { depth });
    }
    match byte(bytes)? {
        (VOID, tail) => Some(Step::leaf(Item::Void, tail)),
        _ => content(bytes, depth),
    }
}

/// The item of a modifier or PINNED before a local variable.
fn prefix_item(prefix: Prefix) -> Item
    ensures { result ≡ item_of_prefix prefix }
{
    match prefix {
        Prefix::Mod(modifier) => Item::Modifier(modifier),
        Prefix::Pinned => Item::Pinned,
    }
}

/// Reads a local variable (II.23.2.6).
#[tactic(auto, using(crate::proofs::Arms::local_next, crate::proofs::Arms::local_none, crate::proofs::Arms::local_bare))]
pub fn local(bytes: &[u8], depth: u8) -> Option<Step<'_>>
    ensures reported { reported result ≡ position_at (position.Local depth) bytes.now }
    ensures within { IfSome result (IsWithin depth) }
{
    if has_prefix(bytes) {
        let (prefix, tail) = prefix(bytes)?;
        return Some(Step::before(prefix_item(prefix), Position::Local { depth }, tail));
    }
    content(bytes, depth)
}

/// Reads SENTINEL, followed by a parameter (II.23.2.2, II.23.2.3).
#[tactic(auto, using(crate::proofs::Arms::marked_first), unfolding(crate::specs::Positions::position_at))]
pub fn marked(bytes: &[u8], depth: u8) -> Option<Step<'_>>
    ensures reported { reported result ≡ position_at (position.Marked depth) bytes.now }
    ensures within { IfSome result (IsWithin depth) }
{
    match byte(bytes) {
        Some((SENTINEL, tail)) => Some(Step::before(
            Item::Sentinel,
            Position::Slot { depth },
            tail,
        )),
        _ => None,
    }
}
