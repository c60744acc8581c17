ghost use Rattle.std.specs.Prelude.{◌≡◌, ◌↔◌, IsTrue, map};
ghost use Rattle.sig_grammar.specs.Syntax as sig;
ghost use Rattle.sig_grammar.specs.Views.{core_of, type_of, content_of, slot_of, ret_of, method_of, shape_of, types_from};
ghost use Rattle.sig_encoder.specs.Heads.{HaveOneHead};

use crate::same_parts::{
    is_class, is_method_parameter, is_simple, is_type_parameter, is_value_type, is_void_pointer,
    same_generic, same_modifiers, same_shape,
};
use sig_grammar::{Core, MethodSig, Modifier, Ret, Shape, Slot, SlotKind, TypeSig};
use table_schema::Token;

/// Whether two types without the modifiers before them are equal (II.23.2.12).
#[cycle(same)]
#[tactic(auto, using(sig_grammar::proofs::ViewLemmas::views))]
fn same_core(core: &Core, other: &Core) -> bool
    ensures { IsTrue result ↔ (core_of core.now ≡ core_of other.now) }
{
    match core {
        Core::Simple(element) => is_simple(*element, other),
        Core::Pointer(mods, to) => match to {
            None => is_void_pointer(mods, other),
            Some(to) => is_pointer(mods, to, other),
        },
        Core::Vector(of) => match other {
            Core::Vector(other) => same_type(of, other),
            _ => false,
        },
        Core::Array(of, shape) => is_array(of, shape, other),
        Core::Class(of) => is_class(*of, other),
        Core::Value(of) => is_value_type(*of, other),
        Core::Var(number) => is_type_parameter(*number, other),
        Core::MVar(number) => is_method_parameter(*number, other),
        Core::Instance { value, of, args } => is_instance(*value, *of, args, other),
        Core::Function(method) => match other {
            Core::Function(other) => same_method(method, other),
            _ => false,
        },
    }
}

/// Whether the type is the pointer to this type with these modifiers.
#[cycle(same)]
#[tactic(auto, using(sig_grammar::proofs::ViewLemmas::view_pointer, sig_grammar::proofs::ViewLemmas::view_void_pointer))]
fn is_pointer(mods: &[Modifier], to: &Core, core: &Core) -> bool
    ensures { IsTrue result ↔ (sig.pointer mods.now (core_of to.now) ≡ core_of core.now) }
{
    match core {
        Core::Pointer(others, target) => match target {
            None => false,
            Some(target) => same_modifiers(mods, others) && same_core(to, target),
        },
        _ => false,
    }
}

/// Whether the type is the array of this type with this shape.
#[cycle(same)]
#[tactic(auto, using(sig_grammar::proofs::ViewLemmas::view_array))]
fn is_array(of: &TypeSig, shape: &Shape, core: &Core) -> bool
    ensures { IsTrue result ↔ (sig.array (type_of of.now) (shape_of shape.now) ≡ core_of core.now) }
{
    match core {
        Core::Array(other, other_shape) => {
            same_shape(shape, other_shape) && same_type(of, other)
        }
        _ => false,
    }
}

/// Whether the type is the instance of this generic type with these type arguments.
#[cycle(same)]
#[tactic(auto, using(sig_grammar::proofs::ViewLemmas::view_instance, crate::proofs::SameLemmas::types_one))]
fn is_instance(is_value: bool, of: Token, args: &[TypeSig], core: &Core) -> bool
    ensures { IsTrue result ↔ (sig.instance is_value of (types_from (map type_of args.now)) ≡ core_of core.now) }
{
    match core {
        Core::Instance {
            value,
            of: other,
            args: others,
        } => same_generic(is_value, of, *value, *other) && same_types(args, others),
        _ => false,
    }
}

/// Whether two types are equal.
#[cycle(same)]
#[tactic(auto, using(sig_grammar::proofs::ViewLemmas::view_type))]
fn same_type(of: &TypeSig, other: &TypeSig) -> bool
    ensures { IsTrue result ↔ (type_of of.now ≡ type_of other.now) }
{
    same_modifiers(&of.mods, &other.mods) && same_core(&of.core, &other.core)
}

/// Whether two lists of types are equal.
#[cycle(same)]
pub fn same_types(types: &[TypeSig], others: &[TypeSig]) -> bool
    ensures { IsTrue result ↔ (map type_of types.now ≡ map type_of others.now) }
{
    if types.len() != others.len() {
        return false;
    }
    for index in 0..types.len() {
        if !same_type(&types[index], &others[index]) {
            return false;
        }
    }
    true
}

/// Whether the kind and type of two parameters, fields, local variables or results are equal (II.23.2.10).
#[cycle(same)]
#[tactic(auto, using(sig_grammar::proofs::ViewLemmas::view_typed_ref, sig_grammar::proofs::ViewLemmas::view_plain, sig_grammar::proofs::ViewLemmas::view_by_ref))]
pub fn same_content(kind: &SlotKind, other: &SlotKind) -> bool
    ensures { IsTrue result ↔ (content_of kind.now ≡ content_of other.now) }
{
    match kind {
        SlotKind::TypedRef => match other {
            SlotKind::TypedRef => true,
            _ => false,
        },
        SlotKind::Plain(core) => match other {
            SlotKind::Plain(other) => same_core(core, other),
            _ => false,
        },
        SlotKind::ByRef(mods, core) => match other {
            SlotKind::ByRef(others, other) => {
                same_modifiers(mods, others) && same_core(core, other)
            }
            _ => false,
        },
    }
}

/// Whether two parameters, fields or results are equal.
#[cycle(same)]
#[tactic(auto, using(sig_grammar::proofs::ViewLemmas::view_slot))]
pub fn same_slot(slot: &Slot, other: &Slot) -> bool
    ensures { IsTrue result ↔ (slot_of slot.now ≡ slot_of other.now) }
{
    same_modifiers(&slot.mods, &other.mods) && same_content(&slot.kind, &other.kind)
}

/// Whether two lists of parameters are equal.
#[cycle(same)]
pub fn same_slots(slots: &[Slot], others: &[Slot]) -> bool
    ensures { IsTrue result ↔ (map slot_of slots.now ≡ map slot_of others.now) }
{
    if slots.len() != others.len() {
        return false;
    }
    for index in 0..slots.len() {
        if !same_slot(&slots[index], &others[index]) {
            return false;
        }
    }
    true
}

/// Whether the results of two methods are equal (II.23.2.11).
#[cycle(same)]
#[tactic(auto, using(sig_grammar::proofs::ViewLemmas::view_some_ret, sig_grammar::proofs::ViewLemmas::view_void_ret))]
pub fn same_ret(ret: &Ret, other: &Ret) -> bool
    ensures { IsTrue result ↔ (ret_of ret.now ≡ ret_of other.now) }
{
    match ret {
        Ret::Slot(slot) => match other {
            Ret::Slot(other) => same_slot(slot, other),
            Ret::Void(_) => false,
        },
        Ret::Void(mods) => match other {
            Ret::Slot(_) => false,
            Ret::Void(others) => same_modifiers(mods, others),
        },
    }
}

/// Whether two methods are equal, except for their results and parameters.
fn same_head(method: &MethodSig, other: &MethodSig) -> bool
    ensures { IsTrue result ↔ HaveOneHead method.now other.now }
{
    method.kind == other.kind
        && method.this == other.this
        && method.explicit == other.explicit
        && method.generic == other.generic
        && method.sentinel == other.sentinel
}

/// Whether two methods are equal (II.23.2.1 to II.23.2.3).
#[cycle(same)]
#[tactic(auto, using(sig_grammar::proofs::ViewLemmas::view_method, crate::proofs::SameLemmas::slots_one))]
pub fn same_method(method: &MethodSig, other: &MethodSig) -> bool
    ensures { IsTrue result ↔ (method_of method.now ≡ method_of other.now) }
{
    same_head(method, other)
        && same_ret(&method.ret, &other.ret)
        && same_slots(&method.params, &other.params)
}
