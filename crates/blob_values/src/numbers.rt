ghost use Rattle.std.specs.Prelude.{◌≡◌, ◌<◌, length, IfSome, option_map};
ghost use Rattle.blob_values.specs.Reading.{bits_at, sized_at};

use packed::{u16_at, u32_at, u64_at};
use sig_grammar::Element;

/// The first byte as a number, and the remaining bytes.
#[tactic(auto, unfolding(crate::specs::Reading::sized_at))]
fn one_byte(bytes: &[u8]) -> Option<(u8, &[u8])>
    ensures value { option_map (λ x. (x.0, x.1.now)) result ≡ sized_at 1 bytes.now }
    ensures shorter { IfSome result (λ x. length x.1.now < length bytes.now) }
{
    let (number, tail) = bytes.split_first()?;
    Some((*number, tail))
}

/// The number in the first two bytes, and the remaining bytes.
#[tactic(auto, unfolding(crate::specs::Reading::sized_at))]
pub(crate) fn two_bytes(bytes: &[u8]) -> Option<(u16, &[u8])>
    ensures value { option_map (λ x. (x.0, x.1.now)) result ≡ sized_at 2 bytes.now }
    ensures shorter { IfSome result (λ x. length x.1.now < length bytes.now) }
{
    let (number, tail) = bytes.split_at_checked(2)?;
    Some((u16_at(number, 0), tail))
}

/// The number in the first four bytes, and the remaining bytes.
#[tactic(auto, unfolding(crate::specs::Reading::sized_at))]
pub(crate) fn four_bytes(bytes: &[u8]) -> Option<(u32, &[u8])>
    ensures value { option_map (λ x. (x.0, x.1.now)) result ≡ sized_at 4 bytes.now }
    ensures shorter { IfSome result (λ x. length x.1.now < length bytes.now) }
{
    let (number, tail) = bytes.split_at_checked(4)?;
    Some((u32_at(number, 0), tail))
}

/// The number in the first eight bytes, and the remaining bytes.
#[tactic(auto, unfolding(crate::specs::Reading::sized_at))]
fn eight_bytes(bytes: &[u8]) -> Option<(u64, &[u8])>
    ensures value { option_map (λ x. (x.0, x.1.now)) result ≡ sized_at 8 bytes.now }
    ensures shorter { IfSome result (λ x. length x.1.now < length bytes.now) }
{
    let (number, tail) = bytes.split_at_checked(8)?;
    Some((u64_at(number, 0), tail))
}

/// The number in the bytes of a value of this type, and the remaining bytes.
#[tactic(auto, unfolding(crate::specs::Reading::bits_at))]
pub(crate) fn bits(bytes: &[u8], of: Element) -> Option<(u64, &[u8])>
    ensures value { option_map (λ x. (x.0, x.1.now)) result ≡ bits_at of bytes.now }
    ensures shorter { IfSome result (λ x. length x.1.now < length bytes.now) }
{
    match of {
        Element::Boolean | Element::I1 | Element::U1 => {
            let (number, tail) = one_byte(bytes)?;
            Some((u64::from(number), tail))
        }
        Element::Char | Element::I2 | Element::U2 => {
            let (number, tail) = two_bytes(bytes)?;
            Some((u64::from(number), tail))
        }
        Element::I4 | Element::U4 | Element::R4 => {
            let (number, tail) = four_bytes(bytes)?;
            Some((u64::from(number), tail))
        }
        Element::I8 | Element::U8 | Element::R8 => eight_bytes(bytes),
        _ => None,
    }
}
