ghost use Rattle.std.specs.Prelude.{◌≡◌, ◌-◌, ◌∷◌, [], nat_lt, map};
ghost use Rattle.sig_grammar.specs.Syntax as sig;
ghost use Rattle.sig_grammar.specs.Parts.{byte, number, index};
ghost use Rattle.sig_grammar.specs.Views.{core_of, type_of, types_from, content_of, slot_of, slots_from, ret_of, method_of, shape_of};
ghost use Rattle.sig_grammar.specs.Grammar.{flag, method_code, named_code, count_slots, generic_parts};
ghost use Rattle.sig_encoder.specs.Run.{after, run};
ghost use Rattle.sig_encoder.specs.Items.{part, parts_items, level, leaf_items, core_items, first_items, typed_items, types_items, content_items, slot_items, slots_items, ret_items, method_items, may_stand, is_call, stands_at, param_items};

use crate::items::{visit_leaves, visit_rule, visit_shape};
use crate::sink::PartSink;
use sig_grammar::element_type::{
    ARRAY, BYREF, CLASS, FNPTR, GENERICINST, MVAR, PTR, SENTINEL, SZARRAY, TYPEDBYREF, VALUETYPE,
    VAR, VOID,
};
use sig_grammar::method_byte::{EXPLICITTHIS, GENERIC, HASTHIS};
use sig_grammar::{Core, MethodSig, Modifier, Ret, Shape, Slot, SlotKind, TypeSig};
use table_schema::Token;

/// The byte that says whether a generic type is a value type or a class.
fn named_byte(value: bool) -> u16
    ensures { result ≡ named_code value }
{
    u16::from(if value { VALUETYPE } else { CLASS })
}

/// Visits VOID or TYPEDBYREF, which are types of depth 1.
#[tactic(auto, using(crate::proofs::Steps::steps))]
fn visit_leaf<S: PartSink>(sink: &mut S, code: u8, depth: u8) -> Option<()>
    ensures { after result sink.new ≡ run S.step (leaf_items code depth) sink.old }
{
    visit_rule(sink, 0 < depth)?;
    sink.byte(u16::from(code))
}

/// Visits a core (II.23.2.12), with `depth` levels of types left.
#[cycle(walk)]
#[tactic(auto, using(crate::proofs::Steps::steps))]
fn visit_core<S: PartSink>(sink: &mut S, core: &Core, depth: u8) -> Option<()>
    ensures { after result sink.new ≡ run S.step (core_items (core_of core.now) depth) sink.old }
{
    visit_rule(sink, 0 < depth)?;
    visit_first(sink, core, depth.saturating_sub(1))
}

/// Visits a core whose level was already counted.
#[cycle(walk)]
#[tactic(auto, using(crate::proofs::Steps::run_last, sig_grammar::proofs::ViewLemmas::views))]
fn visit_first<S: PartSink>(sink: &mut S, core: &Core, depth: u8) -> Option<()>
    ensures { after result sink.new ≡ run S.step (first_items (core_of core.now) depth) sink.old }
{
    match core {
        Core::Simple(element) => sink.byte(u16::from(element.byte())),
        Core::Pointer(modifiers, to) => match to {
            Some(to) => visit_pointer(sink, modifiers, to, depth),
            None => visit_void_pointer(sink, modifiers, depth),
        },
        Core::Vector(of) => visit_vector(sink, of, depth),
        Core::Array(of, shape) => visit_array(sink, of, shape, depth),
        Core::Class(of) => visit_named(sink, CLASS, *of),
        Core::Value(of) => visit_named(sink, VALUETYPE, *of),
        Core::Var(number) => visit_variable(sink, VAR, *number),
        Core::MVar(number) => visit_variable(sink, MVAR, *number),
        Core::Instance { value, of, args } => visit_instance(sink, *value, *of, args, depth),
        Core::Function(method) => visit_function(sink, method, depth),
    }
}

/// Visits CLASS or VALUETYPE, and the type index after it.
#[tactic(auto, using(crate::proofs::Steps::steps))]
fn visit_named<S: PartSink>(sink: &mut S, code: u8, of: Token) -> Option<()>
    ensures { after result sink.new ≡ run S.step (part (byte code) ∷ part (index of) ∷ []) sink.old }
{
    sink.byte(u16::from(code))?;
    sink.index(of)
}

/// Visits VAR or MVAR, and the number of the generic parameter after it.
#[tactic(auto, using(crate::proofs::Steps::steps))]
fn visit_variable<S: PartSink>(sink: &mut S, code: u8, parameter: u32) -> Option<()>
    ensures { after result sink.new ≡ run S.step (part (byte code) ∷ part (number parameter) ∷ []) sink.old }
{
    sink.byte(u16::from(code))?;
    sink.number(parameter as usize)
}

/// Visits a pointer to VOID.
#[tactic(auto, using(crate::proofs::Steps::steps))]
fn visit_void_pointer<S: PartSink>(sink: &mut S, modifiers: &[Modifier], depth: u8) -> Option<()>
    ensures { after result sink.new ≡ run S.step (first_items (sig.void_pointer modifiers.now) depth) sink.old }
{
    sink.byte(u16::from(PTR))?;
    visit_leaves(sink, modifiers)?;
    visit_leaf(sink, VOID, depth)
}

/// Visits a pointer to a type.
#[cycle(walk)]
#[tactic(auto, using(crate::proofs::Steps::steps))]
fn visit_pointer<S: PartSink>(
    sink: &mut S,
    modifiers: &[Modifier],
    to: &Core,
    depth: u8,
) -> Option<()>
    ensures { after result sink.new ≡ run S.step (first_items (sig.pointer modifiers.now (core_of to.now)) depth) sink.old }
{
    sink.byte(u16::from(PTR))?;
    visit_leaves(sink, modifiers)?;
    visit_core(sink, to, depth)
}

/// Visits an array of one dimension.
#[cycle(walk)]
#[tactic(auto, using(crate::proofs::Steps::steps))]
fn visit_vector<S: PartSink>(sink: &mut S, of: &TypeSig, depth: u8) -> Option<()>
    ensures { after result sink.new ≡ run S.step (first_items (sig.vector (type_of of.now)) depth) sink.old }
{
    sink.byte(u16::from(SZARRAY))?;
    visit_typed(sink, of, depth)
}

/// Visits an array with a shape (II.23.2.13).
#[cycle(walk)]
#[tactic(auto, using(crate::proofs::Steps::steps))]
fn visit_array<S: PartSink>(sink: &mut S, of: &TypeSig, shape: &Shape, depth: u8) -> Option<()>
    ensures { after result sink.new ≡ run S.step (first_items (sig.array (type_of of.now) (shape_of shape.now)) depth) sink.old }
{
    sink.byte(u16::from(ARRAY))?;
    visit_typed(sink, of, depth)?;
    visit_shape(sink, shape)
}

/// Visits an instance of a generic type.
#[cycle(walk)]
#[tactic(auto, using(crate::proofs::Steps::steps, crate::proofs::Loops::types_count))]
fn visit_instance<S: PartSink>(
    sink: &mut S,
    value: bool,
    of: Token,
    args: &[TypeSig],
    depth: u8,
) -> Option<()>
    ensures { after result sink.new ≡ run S.step (first_items (sig.instance value of (types_from (map type_of args.now))) depth) sink.old }
{
    sink.byte(u16::from(GENERICINST))?;
    sink.byte(named_byte(value))?;
    sink.index(of)?;
    sink.number(args.len())?;
    visit_types(sink, args, depth)
}

/// Visits a pointer to a method.
#[cycle(walk)]
#[tactic(auto, using(crate::proofs::Steps::steps))]
fn visit_function<S: PartSink>(sink: &mut S, method: &MethodSig, depth: u8) -> Option<()>
    ensures { after result sink.new ≡ run S.step (first_items (sig.function (method_of method.now)) depth) sink.old }
{
    sink.byte(u16::from(FNPTR))?;
    visit_method(sink, method, depth)
}

/// Visits a type.
#[cycle(walk)]
#[tactic(auto, using(crate::proofs::Steps::steps, sig_grammar::proofs::ViewLemmas::view_type))]
pub fn visit_typed<S: PartSink>(sink: &mut S, of: &TypeSig, depth: u8) -> Option<()>
    ensures { after result sink.new ≡ run S.step (typed_items (type_of of.now) depth) sink.old }
{
    visit_leaves(sink, &of.mods)?;
    visit_core(sink, &of.core, depth)
}

/// Visits types, one after another.
#[cycle(walk)]
#[tactic(auto, using(crate::proofs::Steps::steps, crate::proofs::Loops::each_type))]
pub fn visit_types<S: PartSink>(sink: &mut S, types: &[TypeSig], depth: u8) -> Option<()>
    ensures { after result sink.new ≡ run S.step (types_items (types_from (map type_of types.now)) depth) sink.old }
{
    for of in types {
        visit_typed(sink, of, depth)?;
    }
    Some(())
}

/// Visits the kind and type of a parameter, a field or a local variable (II.23.2.10).
#[cycle(walk)]
#[tactic(auto, using(crate::proofs::Steps::steps, crate::proofs::Forms::then_both, sig_grammar::proofs::ViewLemmas::view_typed_ref, sig_grammar::proofs::ViewLemmas::view_plain, sig_grammar::proofs::ViewLemmas::view_by_ref))]
pub fn visit_content<S: PartSink>(sink: &mut S, content: &SlotKind, depth: u8) -> Option<()>
    ensures { after result sink.new ≡ run S.step (content_items (content_of content.now) depth) sink.old }
{
    match content {
        SlotKind::TypedRef => visit_leaf(sink, TYPEDBYREF, depth),
        SlotKind::Plain(core) => visit_core(sink, core, depth),
        SlotKind::ByRef(modifiers, core) => {
            sink.byte(u16::from(BYREF))?;
            visit_leaves(sink, modifiers)?;
            visit_core(sink, core, depth)
        }
    }
}

/// Visits a parameter or a field.
#[cycle(walk)]
#[tactic(auto, using(crate::proofs::Steps::steps, sig_grammar::proofs::ViewLemmas::view_slot))]
pub fn visit_slot<S: PartSink>(sink: &mut S, slot: &Slot, depth: u8) -> Option<()>
    ensures { after result sink.new ≡ run S.step (slot_items (slot_of slot.now) depth) sink.old }
{
    visit_leaves(sink, &slot.mods)?;
    visit_content(sink, &slot.kind, depth)
}

/// Visits a parameter, with SENTINEL before it or not.
#[cycle(walk)]
#[tactic(auto, using(crate::proofs::Steps::steps))]
fn visit_param<S: PartSink>(sink: &mut S, slot: &Slot, marked: bool, depth: u8) -> Option<()>
    ensures { after result sink.new ≡ run S.step (param_items marked (slot_of slot.now) depth) sink.old }
{
    if marked {
        sink.byte(u16::from(SENTINEL))?;
        return visit_slot(sink, slot, depth);
    }
    visit_slot(sink, slot, depth)
}

/// Whether SENTINEL precedes the parameter with this index.
fn stands_before(sentinel: Option<u32>, param_index: usize) -> bool
    ensures { result ≡ stands_at sentinel param_index }
{
    match sentinel {
        Some(before) => before as usize == param_index,
        None => false,
    }
}

/// Visits parameters, with SENTINEL before one of them if there is one (II.23.2.2, II.23.2.3).
#[cycle(walk)]
#[tactic(auto, using(crate::proofs::Steps::steps, crate::proofs::Loops::each_param))]
pub fn visit_params<S: PartSink>(
    sink: &mut S,
    params: &[Slot],
    sentinel: Option<u32>,
    depth: u8,
) -> Option<()>
    ensures { after result sink.new ≡ run S.step (slots_items (slots_from (map slot_of params.now)) sentinel depth) sink.old }
{
    for (param_index, slot) in params.iter().enumerate() {
        visit_param(sink, slot, stands_before(sentinel, param_index), depth)?;
    }
    Some(())
}

/// Visits a result (II.23.2.11).
#[cycle(walk)]
#[tactic(auto, using(crate::proofs::Steps::steps, sig_grammar::proofs::ViewLemmas::view_some_ret, sig_grammar::proofs::ViewLemmas::view_void_ret))]
pub fn visit_ret<S: PartSink>(sink: &mut S, ret: &Ret, depth: u8) -> Option<()>
    ensures { after result sink.new ≡ run S.step (ret_items (ret_of ret.now) depth) sink.old }
{
    match ret {
        Ret::Slot(slot) => visit_slot(sink, slot, depth),
        Ret::Void(modifiers) => {
            visit_leaves(sink, modifiers)?;
            visit_leaf(sink, VOID, depth)
        }
    }
}

/// Whether a method of this kind, with this number of parameters, may have this SENTINEL.
fn may_have(kind: u8, count: usize, sentinel: Option<u32>) -> bool
    ensures { result ≡ may_stand kind count sentinel }
{
    match sentinel {
        Some(before) => (before as usize) < count && (kind == 1 || kind == 5),
        None => true,
    }
}

/// Whether a method may be of this kind, and SENTINEL, if present, may be at its index among the parameters.
#[tactic(auto, using(crate::proofs::Loops::slots_count))]
fn can_be(kind: u8, params: &[Slot], sentinel: Option<u32>) -> bool
    ensures { result ≡ is_call kind (count_slots (slots_from (map slot_of params.now))) sentinel }
{
    (kind < 6 || kind == 9) && may_have(kind, params.len(), sentinel)
}

/// A bit of the first byte of a method: the mask if it is set, else 0.
pub fn bit(set: bool, mask: u8) -> u16
    ensures { result ≡ flag set mask }
{
    u16::from(if set { mask } else { 0 })
}

/// The first byte of a method (II.23.2.1).
fn first_byte(kind: u8, this: bool, explicit: bool, generic: Option<u32>) -> u16
    ensures { result ≡ method_code kind this explicit generic }
{
    u16::from(kind)
        + bit(generic.is_some(), GENERIC)
        + bit(this, HASTHIS)
        + bit(explicit, EXPLICITTHIS)
}

/// Visits the number of generic parameters, if the method is generic.
#[tactic(auto, using(crate::proofs::Steps::steps))]
fn visit_generic<S: PartSink>(sink: &mut S, generic: Option<u32>) -> Option<()>
    ensures { after result sink.new ≡ run S.step (parts_items (generic_parts generic)) sink.old }
{
    match generic {
        Some(number) => sink.number(number as usize),
        None => Some(()),
    }
}

/// Visits a method (II.23.2.1 to II.23.2.3).
#[cycle(walk)]
pub fn visit_method<S: PartSink>(sink: &mut S, method: &MethodSig, depth: u8) -> Option<()>
    ensures { after result sink.new ≡ run S.step (method_items (method_of method.now) depth) sink.old }
{
    visit_rule(sink, can_be(method.kind, &method.params, method.sentinel))?;
    sink.byte(first_byte(method.kind, method.this, method.explicit, method.generic))?;
    visit_generic(sink, method.generic)?;
    sink.number(method.params.len())?;
    visit_ret(sink, &method.ret, depth)?;
    visit_params(sink, &method.params, method.sentinel, depth)
}
