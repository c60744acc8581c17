use heap_pools::PoolError;
use std::alloc::AllocError;
use thiserror::Error;

/// Why a root cannot be planned.
#[derive(Clone, Copy, Debug, PartialEq, Eq, Error)]
pub enum PlanError {
    /// The canonical root is longer than the limit.
    #[error("the root is longer than the limit")]
    TooLarge,
    /// Out of memory.
    #[error("out of memory")]
    Memory,
}

impl From<AllocError> for PlanError {
    ghost use Rattle.std.specs.Prelude.{◌≡◌};
    ghost use Rattle.writer.specs.declared.plan_error.PlanError.TheVariants.{Memory};

    ghost from_gives = { λ _ e. e ≡ Memory };

    fn from(_: AllocError) -> PlanError {
        PlanError::Memory
    }
}

impl From<PoolError> for PlanError {
    ghost use Rattle.std.specs.Prelude.{◌≡◌};
    ghost use Rattle.writer.specs.Planned.{plan_error};

    ghost from_gives = { λ pool e. e ≡ plan_error pool };

    fn from(error: PoolError) -> PlanError {
        match error {
            PoolError::Memory => PlanError::Memory,
            PoolError::Full => PlanError::TooLarge,
        }
    }
}
