ghost use Rattle.std.specs.Prelude.{◌≡◌, ◌↔◌, IsTrue, map};
ghost use Rattle.sig_grammar.specs.Syntax.{Body};
ghost use Rattle.sig_grammar.specs.Views.{local_of, body_of, slot_of};
ghost use Rattle.sig_encoder.specs.Same.{is_same_body};

use crate::same_parts::same_prefixes;
use crate::same_types::{same_content, same_method, same_ret, same_slot, same_slots, same_types};
use sig_grammar::{Local, PropertySig, SigBody};

/// Whether two local variables are equal (II.23.2.6).
fn same_local(local: &Local, other: &Local) -> bool
    ensures { IsTrue result ↔ (local_of local.now ≡ local_of other.now) }
{
    same_prefixes(&local.prefix, &other.prefix) && same_content(&local.kind, &other.kind)
}

/// Whether two lists of local variables are equal.
fn same_locals(locals: &[Local], others: &[Local]) -> bool
    ensures { IsTrue result ↔ (map local_of locals.now ≡ map local_of others.now) }
{
    if locals.len() != others.len() {
        return false;
    }
    for index in 0..locals.len() {
        if !same_local(&locals[index], &others[index]) {
            return false;
        }
    }
    true
}

/// Whether two properties are equal (II.23.2.5).
fn same_property(property: &PropertySig, other: &PropertySig) -> bool
    ensures { IsTrue result ↔ ((property.now.this ≡ other.now.this) × (slot_of property.now.of ≡ slot_of other.now.of)
        × (map slot_of property.now.params.items ≡ map slot_of other.now.params.items)) }
{
    property.this == other.this
        && same_slot(&property.of, &other.of)
        && same_slots(&property.params, &other.params)
}

/// Whether two signatures are equal.
fn same_bodies(body: &SigBody, other: &SigBody) -> bool
    ensures { IsTrue result ↔ (body_of body.now ≡ body_of other.now) }
{
    match body {
        SigBody::Field(field) => match other {
            SigBody::Field(other) => same_slot(&field.0, &other.0),
            _ => false,
        },
        SigBody::Method(method) => match other {
            SigBody::Method(other) => same_method(method, other),
            _ => false,
        },
        SigBody::Property(property) => match other {
            SigBody::Property(other) => same_property(property, other),
            _ => false,
        },
        SigBody::Locals(locals) => match other {
            SigBody::Locals(other) => same_locals(&locals.0, &other.0),
            _ => false,
        },
        SigBody::Instance(args) => match other {
            SigBody::Instance(other) => same_types(&args.0, &other.0),
            _ => false,
        },
        SigBody::TypeSpec(ret) => match other {
            SigBody::TypeSpec(other) => same_ret(ret, other),
            _ => false,
        },
    }
}

/// Whether two signatures have the same content, whatever their addresses are.
///
/// One pass over both, up to the first difference. It does not allocate. The recursion, and so the stack,
/// is as deep as their types nest.
pub fn is_same(body: &SigBody, other: &SigBody) -> bool
    ensures same { IsTrue result ↔ (body_of body.now ≡ body_of other.now) }
    // The same as a boolean test, for comparisons that need a name for it.
    ensures test { result ≡ is_same_body (body_of body.now) (body_of other.now) }
{
    same_bodies(body, other)
}

/// The test `is_same_body` is true of two signatures if and only if they are equal.
pub fn equality_is_tested()
    ensures { (first second : Body) → IsTrue (is_same_body first second) ↔ (first ≡ second) }
{}
