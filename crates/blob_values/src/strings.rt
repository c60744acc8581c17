ghost use Rattle.std.specs.Prelude.{◌≡◌, ◌<◌, length, IfSome, option_map};
ghost use Rattle.blob_values.specs.Reading.{string_at};

use crate::readers;

/// The byte that stands for a string that is null.
const NULL: u8 = 0xFF;

/// The SerString at the start, and the remaining bytes. The string is `None` if it is null.
#[tactic(auto, unfolding(crate::specs::Reading::string_at))]
pub(crate) fn string(bytes: &[u8]) -> Option<(Option<&str>, &[u8])>
    ensures value { option_map (λ x. (option_map (λ t. t.now) x.0, x.1.now)) result ≡ string_at bytes.now }
    ensures shorter { IfSome result (λ x. length x.1.now < length bytes.now) }
{
    let (first, tail) = bytes.split_first()?;
    if *first == NULL {
        return Some((None, tail));
    }
    let (text, tail) = readers::text(bytes)?;
    Some((Some(text), tail))
}
