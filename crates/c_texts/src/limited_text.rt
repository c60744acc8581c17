//! A text that is written into a caller's buffer as it is made, up to a limit.
ghost use Rattle.std.specs.Prelude.{◌≡◌, ◌<◌, ◌≤◌, ◌⊎◌, ◌-◌, ◌^◌};
ghost use Rattle.c_texts.specs.Texts.{text_limit};

use crate::parts::{TOO_LONG, append};
use full_names::{Limit, Scopes};
use std::fmt;

/// The largest number of bytes of a text.
pub(crate) const TEXT_LIMIT: usize = 1 << 16;

/// What is returned for a text of a length: the length, or [`TOO_LONG`] if it is more than the limit.
pub(crate) fn len_within(len: usize) -> usize
    ensures short { len ≤ text_limit → result ≡ len }
    ensures long { text_limit < len → result ≡ 2 ^ 64 - 1 }
    ensures within { (result ≤ 2 ^ 16) ⊎ (result ≡ 2 ^ 64 - 1) }
{
    if len > TEXT_LIMIT { TOO_LONG } else { len }
}

/// A writer of a text into a buffer that is not longer than the limit. It passes over what follows the limit, and never
/// fails.
#[derive(Drop)]
pub(crate) struct LimitedText<'a> {
    pub(crate) buffer: &'a mut [u8],
    /// The length of the text so far, or one more than the limit if it is longer than that.
    pub(crate) len: usize,
}

impl fmt::Write for LimitedText<'_> {
    ghost use Rattle.std.specs.Prelude.{◌≡◌, ◌+◌};
    ghost use Rattle.c_texts.specs.Texts.{Extends, text_limit};

    ghost write_str_gives = { λ before text after. (after.buffer.ghost_name ≡ before.buffer.ghost_name)
        × Extends (text_limit + 1) before.buffer.now before.len text after.buffer.now after.len };

    fn write_str(&mut self, text: &str) -> fmt::Result {
        self.len = append(self.buffer, self.len, text.as_bytes(), TEXT_LIMIT + 1);
        Ok(())
    }
}

/// The limit of such a text.
pub(crate) struct TextLimit;

impl Limit<LimitedText<'_>> for TextLimit {
    ghost use Rattle.std.specs.Prelude.{◌≡◌};
    ghost use Rattle.full_names.specs.declared.limit.Scopes.TheVariants.{Omitted};

    #[tactic(auto, using(crate::proofs::Buffers::stays))]
    fn is_reached(&self, text: &LimitedText<'_>) -> bool {
        text.len > TEXT_LIMIT
    }

    fn scopes_of_names(&self) -> Scopes
        ensures { result ≡ Omitted }
    {
        Scopes::Omitted
    }
}
