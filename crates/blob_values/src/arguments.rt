ghost use Rattle.std.specs.Prelude.{◌≡◌, ◌<◌, length, IfSome, option_map};
ghost use Rattle.blob_values.specs.Reading.{argument_type_at, count_of, head_at, intro_at, member_at, member_of};
ghost use Rattle.blob_values.specs.Steps.{intro_view};
ghost use Rattle.blob_values.specs.Views.{head_view};

use crate::item::{Argument, Member};
use crate::numbers::four_bytes;
use crate::scalars::{element, first_type};
use crate::strings::string;
use crate::types::ArgumentType;
use sig_grammar::element_type::SZARRAY;

/// The codes of a field and of a property (II.23.3).
const FIELD: u8 = 0x53;

const PROPERTY: u8 = 0x54;

/// What precedes the value of a named argument.
#[derive(Clone, Copy)]
pub(crate) struct Intro<'a> {
    pub(crate) member: Member,
    pub(crate) of: ArgumentType,
    pub(crate) name: &'a str,
}

/// The number of elements of an array; `None` if it is null.
fn count_of(number: u32) -> Option<u32>
    ensures { result ≡ count_of number }
{
    if number == u32::MAX {
        None
    } else {
        Some(number)
    }
}

/// The argument at the start, without the elements of an array, and the remaining bytes.
#[tactic(auto, unfolding(crate::specs::Reading::head_at))]
pub(crate) fn argument(bytes: &[u8], of: ArgumentType) -> Option<(Argument<'_>, &[u8])>
    ensures value { option_map (λ x. (head_view x.0, x.1.now)) result ≡ head_at of bytes.now }
    ensures shorter { IfSome result (λ x. length x.1.now < length bytes.now) }
{
    match of {
        ArgumentType::One(of) => {
            let (value, tail) = element(bytes, of)?;
            Some((Argument::One(value), tail))
        }
        ArgumentType::Vector(of) if of.has_values() => {
            let (number, tail) = four_bytes(bytes)?;
            Some((Argument::Vector(of, count_of(number)), tail))
        }
        ArgumentType::Vector(_) => None,
    }
}

/// The type of an argument, and the remaining bytes.
#[tactic(auto, unfolding(crate::specs::Reading::argument_type_at))]
fn argument_type(bytes: &[u8]) -> Option<(ArgumentType, &[u8])>
    ensures value { option_map (λ x. (x.0, x.1.now)) result ≡ argument_type_at bytes.now }
    ensures shorter { IfSome result (λ x. length x.1.now < length bytes.now) }
{
    match bytes.split_first()? {
        (&SZARRAY, tail) => {
            let (of, tail) = first_type(tail)?;
            Some((ArgumentType::Vector(of), tail))
        }
        _ => {
            let (of, tail) = first_type(bytes)?;
            Some((ArgumentType::One(of), tail))
        }
    }
}

/// The kind of member with this code.
#[tactic(auto, unfolding(crate::specs::Reading::member_of))]
fn member_of(code: u8) -> Option<Member>
    ensures { result ≡ member_of code }
{
    match code {
        FIELD => Some(Member::Field),
        PROPERTY => Some(Member::Property),
        _ => None,
    }
}

/// The kind of member whose code is at the start, and the remaining bytes.
fn member(bytes: &[u8]) -> Option<(Member, &[u8])>
    ensures value { option_map (λ x. (x.0, x.1.now)) result ≡ member_at bytes.now }
    ensures shorter { IfSome result (λ x. length x.1.now < length bytes.now) }
{
    let (code, tail) = bytes.split_first()?;
    let member = member_of(*code)?;
    Some((member, tail))
}

/// What precedes the value of the named argument at the start, and the remaining bytes.
#[tactic(auto, unfolding(crate::specs::Reading::intro_at))]
pub(crate) fn introduction(bytes: &[u8]) -> Option<(Intro<'_>, &[u8])>
    ensures value { option_map (λ x. (intro_view x.0, x.1.now)) result ≡ intro_at bytes.now }
    ensures shorter { IfSome result (λ x. length x.1.now < length bytes.now) }
{
    let (member, tail) = member(bytes)?;
    let (of, tail) = argument_type(tail)?;
    let (name, tail) = string(tail)?;
    let name = name?;
    Some((Intro { member, of, name }, tail))
}
