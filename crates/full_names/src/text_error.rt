use std::alloc::AllocError;
use std::fmt;
use thiserror::Error;

/// Why a name or a declaration was not written to its end.
#[derive(Clone, Copy, Debug, PartialEq, Eq, Error)]
pub enum TextError {
    /// The writer refused a part of the text.
    #[error("the writer refused a part of the text")]
    Writer,
    /// Out of memory for the bytes of a signature that is held as a value.
    #[error("out of memory")]
    Memory,
}

impl From<AllocError> for TextError {
    ghost use Rattle.std.specs.Prelude.{◌≡◌};
    ghost use Rattle.full_names.specs.declared.text_error.TextError.TheVariants.{Memory};

    ghost from_gives = { λ _ error. error ≡ Memory };

    fn from(_error: AllocError) -> Self {
        TextError::Memory
    }
}

impl From<fmt::Error> for TextError {
    ghost use Rattle.std.specs.Prelude.{◌≡◌};
    ghost use Rattle.full_names.specs.declared.text_error.TextError.TheVariants.{Writer};

    ghost from_gives = { λ _ error. error ≡ Writer };

    fn from(_error: fmt::Error) -> Self {
        TextError::Writer
    }
}
