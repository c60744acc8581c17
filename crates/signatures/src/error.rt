use std::alloc::{AllocError, AllocFailed};
use thiserror::Error;

/// The reason why no value was built.
#[derive(Clone, Copy, Debug, PartialEq, Eq, Error)]
pub enum SigError {
    /// All the bytes together encode no signature that a column of this kind holds.
    #[error("BadSignature: the bytes encode no signature of this kind (rule 701)")]
    Bad,
    /// The bytes encode a signature, but its value could not be allocated.
    #[error("out of memory")]
    Memory,
}

impl From<AllocError> for SigError {
    ghost use Rattle.std.specs.Prelude.{◌≡◌};
    ghost use Rattle.signatures.specs.declared.error.SigError.TheVariants.{Memory};

    ghost from_gives = { λ _ error. error ≡ Memory };

    fn from(_error: AllocError) -> Self {
        SigError::Memory
    }
}

impl<T: Drop> From<AllocFailed<T>> for SigError {
    ghost use Rattle.std.specs.Prelude.{◌≡◌};
    ghost use Rattle.signatures.specs.declared.error.SigError.TheVariants.{Memory};

    ghost from_gives = { λ _ error. error ≡ Memory };

    fn from(_error: AllocFailed<T>) -> Self {
        SigError::Memory
    }
}
