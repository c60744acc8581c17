ghost use Rattle.std.specs.Prelude.{◌≡◌, ◌↔◌, IsTrue};
ghost use Rattle.sig_grammar.specs.Syntax as sig;
ghost use Rattle.sig_grammar.specs.Views.{core_of, shape_of};

use sig_grammar::{Core, Element, Modifier, Prefix, Shape};
use table_schema::Token;

/// Whether two lists of modifiers are equal.
pub fn same_modifiers(modifiers: &[Modifier], others: &[Modifier]) -> bool
    ensures { IsTrue result ↔ (modifiers.now ≡ others.now) }
{
    modifiers == others
}

/// Whether two lists of modifiers and PINNED are equal.
pub fn same_prefixes(prefixes: &[Prefix], others: &[Prefix]) -> bool
    ensures { IsTrue result ↔ (prefixes.now ≡ others.now) }
{
    prefixes == others
}

/// Whether two shapes of arrays are equal (II.23.2.13).
pub fn same_shape(shape: &Shape, other: &Shape) -> bool
    ensures { IsTrue result ↔ (shape_of shape.now ≡ shape_of other.now) }
{
    shape == other
}

/// Whether two tokens are equal.
fn same_token(of: Token, other: Token) -> bool
    ensures { IsTrue result ↔ (of ≡ other) }
{
    of == other
}

/// Whether two generic types are equal: both value types or both classes, with the same token.
pub fn same_generic(is_value: bool, of: Token, other_is_value: bool, other: Token) -> bool
    ensures { IsTrue result ↔ ((is_value ≡ other_is_value) × (of ≡ other)) }
{
    is_value == other_is_value && same_token(of, other)
}

/// Whether the type is this one-byte type.
#[tactic(auto, using(sig_grammar::proofs::ViewLemmas::views))]
pub fn is_simple(element: Element, core: &Core) -> bool
    ensures { IsTrue result ↔ (sig.simple element ≡ core_of core.now) }
{
    match core {
        Core::Simple(other) => element == *other,
        _ => false,
    }
}

/// Whether the type is the pointer to VOID with these modifiers.
#[tactic(auto, using(sig_grammar::proofs::ViewLemmas::views))]
pub fn is_void_pointer(mods: &[Modifier], core: &Core) -> bool
    ensures { IsTrue result ↔ (sig.void_pointer mods.now ≡ core_of core.now) }
{
    match core {
        Core::Pointer(others, to) => match to {
            None => same_modifiers(mods, others),
            Some(_) => false,
        },
        _ => false,
    }
}

/// Whether the type is the class with this token.
#[tactic(auto, using(sig_grammar::proofs::ViewLemmas::views))]
pub fn is_class(of: Token, core: &Core) -> bool
    ensures { IsTrue result ↔ (sig.class of ≡ core_of core.now) }
{
    match core {
        Core::Class(other) => same_token(of, *other),
        _ => false,
    }
}

/// Whether the type is the value type with this token.
#[tactic(auto, using(sig_grammar::proofs::ViewLemmas::views))]
pub fn is_value_type(of: Token, core: &Core) -> bool
    ensures { IsTrue result ↔ (sig.value of ≡ core_of core.now) }
{
    match core {
        Core::Value(other) => same_token(of, *other),
        _ => false,
    }
}

/// Whether the type is the generic parameter of a type with this number.
#[tactic(auto, using(sig_grammar::proofs::ViewLemmas::views))]
pub fn is_type_parameter(number: u32, core: &Core) -> bool
    ensures { IsTrue result ↔ (sig.var number ≡ core_of core.now) }
{
    match core {
        Core::Var(other) => number == *other,
        _ => false,
    }
}

/// Whether the type is the generic parameter of a method with this number.
#[tactic(auto, using(sig_grammar::proofs::ViewLemmas::views))]
pub fn is_method_parameter(number: u32, core: &Core) -> bool
    ensures { IsTrue result ↔ (sig.mvar number ≡ core_of core.now) }
{
    match core {
        Core::MVar(other) => number == *other,
        _ => false,
    }
}
