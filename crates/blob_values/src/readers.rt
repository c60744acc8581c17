ghost use Rattle.std.specs.Prelude.{◌≡◌, ◌<◌, ◌≤◌, length, IfSome, option_map};
ghost use Rattle.blob_values.specs.DescriptorReading.{number_at, text_at, text_in};

use packed::read_unsigned;
use std::str;

/// The packed number at the start (II.23.2), and the remaining bytes.
#[tactic(auto, unfolding(crate::specs::DescriptorReading::number_at))]
pub(crate) fn number(bytes: &[u8]) -> Option<(u32, &[u8])>
    ensures value { option_map (λ x. (x.0, x.1.now)) result ≡ number_at bytes.now }
    ensures shorter { IfSome result (λ x. length x.1.now < length bytes.now) }
{
    let (number, used) = read_unsigned(bytes)?;
    let (_, tail) = bytes.split_at(used);
    Some((number, tail))
}

/// The text of `len` bytes at the start, and the remaining bytes.
#[tactic(auto, using(crate::proofs::DescriptorPartLemmas::text_read, crate::proofs::DescriptorPartLemmas::text_bad))]
fn text_of(bytes: &[u8], len: usize) -> Option<(&str, &[u8])>
    ensures value { option_map (λ x. (x.0.now, x.1.now)) result ≡ text_in len bytes.now }
    ensures shorter { IfSome result (λ x. length x.1.now ≤ length bytes.now) }
{
    let (text, tail) = bytes.split_at_checked(len)?;
    match str::from_utf8(text) {
        Ok(text) => Some((text, tail)),
        Err(_) => None,
    }
}

/// The text at the start, after its length, and the remaining bytes.
#[tactic(auto, unfolding(crate::specs::DescriptorReading::text_at))]
pub(crate) fn text(bytes: &[u8]) -> Option<(&str, &[u8])>
    ensures value { option_map (λ x. (x.0.now, x.1.now)) result ≡ text_at bytes.now }
    ensures shorter { IfSome result (λ x. length x.1.now < length bytes.now) }
{
    let (len, tail) = number(bytes)?;
    text_of(tail, len as usize)
}
