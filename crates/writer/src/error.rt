use crate::plan_error::PlanError;
use crate::send::Stopped;
use std::alloc::AllocError;
use thiserror::Error;

/// Why a root was not written, or not completely.
#[derive(Clone, Copy, Debug, PartialEq, Eq, Error)]
pub enum WriteError {
    /// The canonical root is longer than the limit. No byte was sent.
    #[error("the root is longer than the limit")]
    TooLarge,
    /// Out of memory. No byte was sent.
    #[error("out of memory")]
    Memory,
    /// The sink failed before all bytes were sent.
    #[error("the writer failed after {given} bytes")]
    Device {
        /// The number of bytes that were sent: the prefix of this length.
        given: u64,
    },
}

impl From<AllocError> for WriteError {
    ghost use Rattle.std.specs.Prelude.{◌≡◌};
    ghost use Rattle.writer.specs.declared.error.WriteError.TheVariants.{Memory};

    ghost from_gives = { λ _ error. error ≡ Memory };

    fn from(_error: AllocError) -> Self {
        WriteError::Memory
    }
}

impl From<PlanError> for WriteError {
    ghost use Rattle.std.specs.Prelude.{◌≡◌};
    ghost use Rattle.writer.specs.Errors.{unplanned};

    ghost from_gives = { λ refused error. error ≡ unplanned refused };

    fn from(refused: PlanError) -> Self {
        match refused {
            PlanError::TooLarge => WriteError::TooLarge,
            PlanError::Memory => WriteError::Memory,
        }
    }
}

impl From<Stopped> for WriteError {
    ghost use Rattle.std.specs.Prelude.{◌≡◌};
    ghost use Rattle.writer.specs.declared.error.WriteError.TheVariants.{Device};

    ghost from_gives = { λ stopped error. error ≡ Device stopped.given };

    fn from(stopped: Stopped) -> Self {
        WriteError::Device {
            given: stopped.given,
        }
    }
}
