ghost use Rattle.std.specs.Prelude.{◌≡◌, IfSome};
ghost use Rattle.sig_items.specs.declared.position.Position.TheVariants as position;
ghost use Rattle.sig_items.specs.Positions.{position_at, field_reported, property_reported, variables_reported, arguments_reported};
ghost use Rattle.sig_items.specs.Steps.{reported, reported_by, IsWithin};

use crate::item::Item;
use crate::methods::{method, params};
use crate::position::Position;
use crate::step::Step;
use crate::types::{ret, types, variables};
use sig_grammar::DEPTH_LIMIT;
use sig_recogniser::{byte, number};
use table_schema::SigKind;

/// The head of a field, whose first byte was read (II.23.2.4).
#[tactic(auto, using(crate::proofs::Heads::field_is))]
fn field(tail: &[u8]) -> Step<'_>
    ensures reported { reported_by result ≡ field_reported tail.now }
    ensures within { IsWithin 129 result }
{
    Step::before(Item::Field, Position::Slot { depth: DEPTH_LIMIT }, tail)
}

/// The head of a property, whose first byte was read (II.23.2.5).
#[tactic(auto, unfolding(crate::specs::Positions::property_reported, sig_grammar::specs::Columns::headed_at))]
fn property(bytes: &[u8], this: bool) -> Option<Step<'_>>
    ensures reported { reported result ≡ property_reported this bytes.now }
    ensures within { IfSome result (IsWithin 129) }
{
    let (count, tail) = number(bytes)?;
    Some(Step {
        item: Item::Property {
            this,
            params: count,
        },
        frame: params(count, false, DEPTH_LIMIT),
        position: Some(Position::Slot { depth: DEPTH_LIMIT }),
        tail,
    })
}

/// The head of local variables, whose first byte was read (II.23.2.6).
#[tactic(auto, using(crate::proofs::Heads::locals_is), unfolding(crate::specs::Positions::variables_reported, sig_grammar::specs::Reading::counted_at))]
fn locals(bytes: &[u8]) -> Option<Step<'_>>
    ensures reported { reported result ≡ variables_reported bytes.now }
    ensures within { IfSome result (IsWithin 129) }
{
    let (count, tail) = number(bytes)?;
    Some(Step {
        item: Item::Locals(count),
        frame: variables(count, DEPTH_LIMIT),
        position: None,
        tail,
    })
}

/// The head of the type arguments of a generic method, whose first byte was read (II.23.2.15).
#[tactic(auto, using(crate::proofs::Heads::arguments_is), unfolding(crate::specs::Positions::arguments_reported, sig_grammar::specs::Reading::counted_at))]
fn arguments(bytes: &[u8]) -> Option<Step<'_>>
    ensures reported { reported result ≡ arguments_reported bytes.now }
    ensures within { IfSome result (IsWithin 129) }
{
    let (count, tail) = number(bytes)?;
    Some(Step {
        item: Item::Arguments(count),
        frame: types(count, DEPTH_LIMIT),
        position: None,
        tail,
    })
}

/// The first item of a signature, in a column of a kind.
#[tactic(auto, using(crate::proofs::Heads::body_items), unfolding(crate::specs::Positions::position_at, crate::specs::Positions::field_reported, crate::specs::Positions::property_reported, crate::specs::Positions::variables_reported, crate::specs::Positions::arguments_reported, sig_grammar::specs::Columns::body_at))]
pub fn body(bytes: &[u8], kind: SigKind) -> Option<Step<'_>>
    ensures reported { reported result ≡ position_at (position.Body kind) bytes.now }
    ensures within { IfSome result (IsWithin 129) }
{
    let (first, tail) = byte(bytes)?;
    match kind {
        SigKind::Field => match first {
            0x06 => Some(field(tail)),
            _ => None,
        },
        SigKind::MethodDef => method(bytes, false, DEPTH_LIMIT),
        SigKind::MemberRef => match first {
            0x06 => Some(field(tail)),
            _ => method(bytes, true, DEPTH_LIMIT),
        },
        SigKind::StandAlone => match first {
            0x06 => Some(field(tail)),
            0x07 => locals(tail),
            _ => method(bytes, true, DEPTH_LIMIT),
        },
        SigKind::Property => match first {
            0x08 => property(tail, false),
            0x28 => property(tail, true),
            _ => None,
        },
        SigKind::TypeSpec => ret(bytes, DEPTH_LIMIT),
        SigKind::Instance => match first {
            0x0A => arguments(tail),
            _ => None,
        },
    }
}
