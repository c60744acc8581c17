ghost use Rattle.std.specs.Prelude.{◌≡◌, ◌<◌, ◌^◌, length, option_map};
ghost use Rattle.sig_recogniser.specs.Skips.{left, skip_core, skip_many, skip_slot, skip_typed, skip_local, skip_counted, skip_headed, skip_body};

use crate::position::{Position, byte, number};
use crate::type_index::after_prefixes;
use crate::walk::{after_content, after_method, after_params, after_ret, after_slot, after_types};
use table_schema::SigKind;

/// The position after a local variable (II.23.2.6).
#[tactic(auto, unfolding(crate::specs::Skips::skip_local))]
fn after_local(bytes: &[u8], here: Position, depth: u8, counts: &[u32; 45]) -> Option<Position>
    requires { length bytes.now < 2 ^ 29 }
    ensures { option_map (left bytes.now) result ≡ skip_local counts.now (skip_core counts.now depth) (left bytes.now here) }
{
    let here = after_prefixes(bytes, here, counts)?;
    after_content(bytes, here, depth, counts)
}

/// The position after `count` local variables.
#[tactic(auto, using(crate::proofs::Loops::skip_many_next, crate::proofs::Loops::skip_many_end))]
fn after_locals(
    bytes: &[u8],
    here: Position,
    count: u32,
    depth: u8,
    counts: &[u32; 45],
) -> Option<Position>
    requires { length bytes.now < 2 ^ 29 }
    ensures { option_map (left bytes.now) result ≡ skip_many (skip_local counts.now (skip_core counts.now depth)) count (left bytes.now here) }
{
    let mut here = here;
    for done in 0..count {
        here = after_local(bytes, here, depth, counts)?;
    }
    Some(here)
}

/// The position after the local variables of a method, whose first byte was read (II.23.2.6).
#[tactic(auto, unfolding(crate::specs::Skips::skip_counted))]
fn after_variables(bytes: &[u8], here: Position, depth: u8, counts: &[u32; 45]) -> Option<Position>
    requires { length bytes.now < 2 ^ 29 }
    ensures { option_map (left bytes.now) result ≡ skip_counted (skip_local counts.now (skip_core counts.now depth)) (left bytes.now here) }
{
    let (count, here) = number(bytes, here)?;
    after_locals(bytes, here, count, depth, counts)
}

/// The position after type arguments, whose first byte was read (II.23.2.15).
#[tactic(auto, unfolding(crate::specs::Skips::skip_counted))]
fn after_arguments(bytes: &[u8], here: Position, depth: u8, counts: &[u32; 45]) -> Option<Position>
    requires { length bytes.now < 2 ^ 29 }
    ensures { option_map (left bytes.now) result ≡ skip_counted (skip_typed counts.now (skip_core counts.now depth)) (left bytes.now here) }
{
    let (count, here) = number(bytes, here)?;
    after_types(bytes, here, count, depth, counts)
}

/// The position after a property, whose first byte was read (II.23.2.5).
#[tactic(auto, using(crate::proofs::Loops::skip_params_plain), unfolding(crate::specs::Skips::skip_headed))]
fn after_property(bytes: &[u8], here: Position, depth: u8, counts: &[u32; 45]) -> Option<Position>
    requires { length bytes.now < 2 ^ 29 }
    ensures { option_map (left bytes.now) result ≡ skip_headed (skip_slot counts.now (skip_core counts.now depth)) (left bytes.now here) }
{
    let (count, here) = number(bytes, here)?;
    let here = after_slot(bytes, here, depth, counts)?;
    after_params(bytes, here, count, false, depth, counts)
}

/// The position after the signature at the start, in a column of a kind.
#[inline(always)]
#[tactic(auto, using(crate::proofs::Loops::skip_body_end), unfolding(crate::specs::Skips::skip_body))]
pub fn after_body(
    bytes: &[u8],
    here: Position,
    kind: SigKind,
    depth: u8,
    counts: &[u32; 45],
) -> Option<Position>
    requires { length bytes.now < 2 ^ 29 }
    ensures { option_map (left bytes.now) result ≡ skip_body counts.now kind (skip_core counts.now depth) (left bytes.now here) }
{
    let (first, behind) = byte(bytes, here)?;
    match kind {
        SigKind::Field => match first {
            0x06 => after_slot(bytes, behind, depth, counts),
            _ => None,
        },
        SigKind::MethodDef => after_method(bytes, here, false, depth, counts),
        SigKind::MemberRef => match first {
            0x06 => after_slot(bytes, behind, depth, counts),
            _ => after_method(bytes, here, true, depth, counts),
        },
        SigKind::StandAlone => match first {
            0x06 => after_slot(bytes, behind, depth, counts),
            0x07 => after_variables(bytes, behind, depth, counts),
            _ => after_method(bytes, here, true, depth, counts),
        },
        SigKind::Property => match first {
            0x08 | 0x28 => after_property(bytes, behind, depth, counts),
            _ => None,
        },
        SigKind::TypeSpec => after_ret(bytes, here, depth, counts),
        SigKind::Instance => match first {
            0x0A => after_arguments(bytes, behind, depth, counts),
            _ => None,
        },
    }
}
