ghost use Rattle.std.specs.Prelude.{◌≡◌, ◌∷◌, [], MatchResult, IfOk};
ghost use Rattle.sig_grammar.specs.Reading.{number_at, signed_at, index_at};
ghost use Rattle.signatures.specs.declared.error.SigError.TheVariants.{Bad};
ghost use Rattle.signatures.specs.Gives.{Gives};

use crate::error::SigError;
use std::alloc::{AllocError, Global};
use table_schema::Token;

/// The first byte, and the remaining bytes.
pub fn byte(bytes: &[u8]) -> Result<(u8, &[u8]), SigError>
    ensures { MatchResult result (λ x. bytes.now ≡ x.0 ∷ x.1.now) (λ error. (error ≡ Bad) × (bytes.now ≡ [])) }
{
    sig_recogniser::byte(bytes).ok_or(SigError::Bad)
}

/// The packed number at the start, and the remaining bytes.
#[tactic(auto, using(crate::proofs::Items::given))]
pub fn number(bytes: &[u8]) -> Result<(u32, &[u8]), SigError>
    ensures { Gives (λ x. (x.0, x.1.now)) result (number_at bytes.now) }
{
    sig_recogniser::number(bytes).ok_or(SigError::Bad)
}

/// The packed signed number at the start, and the remaining bytes.
#[tactic(auto, using(crate::proofs::Items::given))]
pub fn signed(bytes: &[u8]) -> Result<(i32, &[u8]), SigError>
    ensures { Gives (λ x. (x.0, x.1.now)) result (signed_at bytes.now) }
{
    sig_recogniser::signed(bytes).ok_or(SigError::Bad)
}

/// The type index at the start (II.23.2.8), and the remaining bytes.
#[tactic(auto, using(crate::proofs::Items::given))]
pub fn index(bytes: &[u8]) -> Result<(Token, &[u8]), SigError>
    ensures { Gives (λ x. (x.0, x.1.now)) result (index_at bytes.now) }
{
    sig_recogniser::index(bytes).ok_or(SigError::Bad)
}

/// An empty list with capacity for `count` values. Each value has at least one byte, so the capacity is at
/// most the number of bytes, whatever the count is.
pub fn with_room<T>(alloc: Global, bytes: &[u8], count: u32) -> Result<Vec<T>, AllocError>
    ensures { IfOk result (λ all. all.items ≡ []) }
{
    Vec::with_capacity(alloc, bytes.len().min(count as usize))
}
