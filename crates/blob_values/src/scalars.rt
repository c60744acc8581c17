ghost use Rattle.std.specs.Prelude.{◌≡◌, ◌<◌, length, IfSome, option_map};
ghost use Rattle.blob_values.specs.Reading.{element_at, first_type, number_at, scalar_at, type_of};
ghost use Rattle.blob_values.specs.Views.{element_view, scalar_view};

use crate::item::{Scalar, Value};
use crate::numbers::bits;
use crate::strings::string;
use crate::types::ElementType;
use sig_grammar::Element;

/// The codes of System.Type and of an object (II.23.3).
const SYSTEM_TYPE: u8 = 0x50;

const OBJECT: u8 = 0x51;

/// The type with this code.
#[tactic(auto, unfolding(crate::specs::Reading::type_of))]
fn type_of(code: u8) -> Option<ElementType>
    ensures { result ≡ type_of code }
{
    match code {
        SYSTEM_TYPE => Some(ElementType::SystemType),
        OBJECT => Some(ElementType::Simple(Element::Object)),
        0..0x0F => {
            let of = Element::from_byte(code)?;
            Some(ElementType::Simple(of))
        }
        _ => None,
    }
}

/// The type whose code is at the start, and the remaining bytes.
pub(crate) fn first_type(bytes: &[u8]) -> Option<(ElementType, &[u8])>
    ensures value { option_map (λ x. (x.0, x.1.now)) result ≡ first_type bytes.now }
    ensures shorter { IfSome result (λ x. length x.1.now < length bytes.now) }
{
    let (code, tail) = bytes.split_first()?;
    let of = type_of(*code)?;
    Some((of, tail))
}

/// The truth value, the character or the number at the start, and the remaining bytes.
#[tactic(auto, unfolding(crate::specs::Reading::number_at))]
fn number(bytes: &[u8], of: Element) -> Option<(Scalar<'_>, &[u8])>
    ensures value { option_map (λ x. (scalar_view x.0, x.1.now)) result ≡ number_at of bytes.now }
    ensures shorter { IfSome result (λ x. length x.1.now < length bytes.now) }
{
    let (number, tail) = bits(bytes, of)?;
    match of {
        Element::Boolean if number > 1 => None,
        _ => Some((Scalar::Number(of, number), tail)),
    }
}

/// The value without a box at the start, and the remaining bytes.
#[tactic(auto, unfolding(crate::specs::Reading::scalar_at))]
fn scalar(bytes: &[u8], of: ElementType) -> Option<(Scalar<'_>, &[u8])>
    ensures value { option_map (λ x. (scalar_view x.0, x.1.now)) result ≡ scalar_at of bytes.now }
    ensures shorter { IfSome result (λ x. length x.1.now < length bytes.now) }
{
    match of {
        ElementType::Simple(Element::String) => {
            let (text, tail) = string(bytes)?;
            Some((Scalar::String(text), tail))
        }
        ElementType::Simple(of) => number(bytes, of),
        ElementType::SystemType => {
            let (name, tail) = string(bytes)?;
            Some((Scalar::SystemType(name), tail))
        }
    }
}

/// The element at the start, and the remaining bytes (II.23.3).
#[tactic(auto, unfolding(crate::specs::Reading::element_at))]
pub(crate) fn element(bytes: &[u8], of: ElementType) -> Option<(Value<'_>, &[u8])>
    ensures value { option_map (λ x. (element_view x.0, x.1.now)) result ≡ element_at of bytes.now }
    ensures shorter { IfSome result (λ x. length x.1.now < length bytes.now) }
{
    match of {
        ElementType::Simple(Element::Object) => {
            let (of, tail) = first_type(bytes)?;
            let (value, tail) = scalar(tail, of)?;
            Some((Value::Boxed(value), tail))
        }
        _ => {
            let (value, tail) = scalar(bytes, of)?;
            Some((Value::Plain(value), tail))
        }
    }
}
