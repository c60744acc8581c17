use metadata::Refusal;
use std::alloc::{AllocError, AllocFailed};
use writer::WriteError;

/// Why no root is made of what a C caller gives.
#[derive(Clone, Copy)]
pub enum NoRoot {
    /// The first rule that is broken.
    Refused(Refusal),
    /// The canonical root would have more than 2^30 bytes.
    TooLong,
    /// Out of memory.
    Memory,
}

impl From<AllocError> for NoRoot {
    ghost use Rattle.std.specs.Prelude.{◌≡◌};
    ghost use Rattle.c_values.specs.declared.no_root.NoRoot.TheVariants.{Memory};

    ghost from_gives = { λ _ reason. reason ≡ Memory };

    fn from(_error: AllocError) -> Self {
        NoRoot::Memory
    }
}

impl<T: Drop> From<AllocFailed<T>> for NoRoot {
    ghost use Rattle.std.specs.Prelude.{◌≡◌};
    ghost use Rattle.c_values.specs.declared.no_root.NoRoot.TheVariants.{Memory};

    ghost from_gives = { λ _ reason. reason ≡ Memory };

    fn from(_error: AllocFailed<T>) -> Self {
        NoRoot::Memory
    }
}

impl From<WriteError> for NoRoot {
    ghost use Rattle.std.specs.Prelude.{◌≡◌};
    ghost use Rattle.c_values.specs.Refused.{unwritten};

    ghost from_gives = { λ error reason. reason ≡ unwritten error };

    fn from(error: WriteError) -> Self {
        match error {
            WriteError::TooLarge => NoRoot::TooLong,
            _ => NoRoot::Memory,
        }
    }
}
